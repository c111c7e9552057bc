// Lengths of single drawers: short and longest, and the refusals in their order. A case is the line that is printed, up
// to the answer.
use crate::asked;
use lengths::Length;
use test_rows::cases;

fn show(line: &[u8]) {
    io::write_all(1, line);
    io::write_all(1, b": ");
    let digits = cases::word(line, 4);
    let row = cases::symbols(digits);
    let limit = cases::part(&row, 0, digits.len());
    match asked::length(cases::drawer(line, 1), limit) {
        Ok(Length::Exactly(x)) => test_rows::print_named(b"exactly ", x as usize),
        Ok(Length::AtMost(x)) => test_rows::print_named(b"at most ", x as usize),
        Err(r) => test_rows::print_refusal(r),
    }
    io::write_all(1, b"\n");
}

pub fn show_all() {
    cases::each(
        b"length 6 3 1 111111\n\
          length 6 3 2 111111\n\
          length 6 3 3 111111\n\
          length 6 3 1 001101\n\
          length 6 3 1 001100\n\
          length 6 3 2 010101\n\
          length 6 3 3 000000\n\
          length 4 2 2 0101\n\
          length 2 0 2 11\n\
          length 1 0 2 0\n\
          length 1 1 1 0\n\
          length 8 3 1 00011000\n\
          length 64 32 1 1111111111111111111111111111111111111111111111111111111111111111\n\
          length 64 32 2 1111111111111111111111111111111111111111111111111111111111111111\n\
          length 64 32 3 1111111111111111111111111111111111111111111111111111111111111111\n\
          length 64 32 1 0101010101010101010101010101010101010101010101010101010101010101\n\
          length 64 32 1 0000000000000000000000000000000100000000000000000000000000000000\n\
          length 64 32 1 0000000000000000000000000000000011111111111111111111111111111111\n\
          length 64 32 2 0000000000000000000000000000000011111111111111111111111111111110\n\
          length 64 0 1 1111111111111111111111111111111111111111111111111111111111111111\n\
          length 64 0 2 1111111111111111111111111111111111111111111111111111111111111111\n\
          length 64 64 3 1111111111111111111111111111111111111111111111111111111111111111\n\
          length 63 21 1 111111111111111111111111111111111111111111111111111111111111111\n\
          length 63 21 2 111111111111111111111111111111111111111111111111111111111111111\n\
          length 0 1 0 2\n\
          length 65 66 4 2\n\
          length most most 1 0\n\
          length 4 5 4 2\n\
          length 4 most 3 0101\n\
          length 4 2 0 21\n\
          length 4 2 4 0121\n\
          length 4 2 255 0101\n\
          length 4 2 3 012\n\
          length 4 2 1 01012\n\
          length 4 2 3 2013\n\
          length 4 2 2 0102\n\
          length 64 32 3 0000000000000000000000000000000000000000211111111111111111111111\n",
        b'\n',
        show,
    );
}
