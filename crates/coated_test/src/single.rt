// How single rows fit others: specimens, and the refusals in their order. A case is the line that is printed, up to the
// answer.
use crate::signed;
use coated::FitAnswer;
use test_rows::cases;

fn print_turn(way: &[u8], turn: i64) {
    io::write_all(1, way);
    if turn < 0 {
        io::write_all(1, b"-");
    }
    io::print_decimal(1, signed::amount(turn) as u64);
}

fn show_fit(line: &[u8]) {
    io::write_all(1, line);
    io::write_all(1, b": ");
    let digits = cases::word(line, 4);
    let other_digits = cases::word(line, 6);
    let row = cases::symbols(digits);
    let other = cases::symbols(other_digits);
    let answer = coated::fit(
        cases::part(&row, 0, digits.len()),
        cases::part(&other, 0, other_digits.len()),
    );
    match answer {
        Ok(FitAnswer::Different) => print_turn(b"different ", 0),
        Ok(FitAnswer::Turning(s)) => print_turn(b"turning ", s),
        Ok(FitAnswer::Over(s)) => print_turn(b"over ", s),
        Ok(FitAnswer::Both(s)) => print_turn(b"both ", s),
        Err(r) => test_rows::print_refusal(r),
    }
    io::write_all(1, b"\n");
}

pub fn show_all() {
    cases::each(
        b"fit of 6 stations 001011 and 101100\n\
          fit of 6 stations 101100 and 001011\n\
          fit of 6 stations 001011 and 011001\n\
          fit of 6 stations 011001 and 001011\n\
          fit of 6 stations 001011 and 001011\n\
          fit of 6 stations 001011 and 001101\n\
          fit of 6 stations 001101 and 001011\n\
          fit of 6 stations 001011 and 110100\n\
          fit of 6 stations 001011 and 000111\n\
          fit of 6 stations 000111 and 111000\n\
          fit of 6 stations 000111 and 000111\n\
          fit of 6 stations 010101 and 101010\n\
          fit of 6 stations 101010 and 010101\n\
          fit of 5 stations 00101 and 01001\n\
          fit of 5 stations 01001 and 00101\n\
          fit of 8 stations 00110011 and 11001100\n\
          fit of 1 stations 1 and 1\n\
          fit of 1 stations 0 and 1\n\
          fit of 2 stations 01 and 10\n\
          fit of 2 stations 01 and 01\n\
          fit of 2 stations 01 and 11\n\
          fit of 64 stations 1101001011010010000001001000000000000000110100101101001000000100 \
            and 0000100100000000000000011010010110100100000010011010010110100100\n\
          fit of 64 stations 1101001011010010000001001000000000000000110100101101001000000100 \
            and 1010010110100100000010011010010110100100000010010000000000000001\n\
          fit of 64 stations 1101001011010010000001001000000000000000110100101101001000000100 \
            and 0000000011010010110100100000010011010010110100100000010010000000\n\
          fit of 64 stations 1101001011010010000001001000000000000000110100101101001000000100 \
            and 0010000001001011010010110010000001001011010010110000000000000001\n\
          fit of 64 stations 1101001011010010000001001000000000000000110100101101001000000100 \
            and 1101001011010010000001001000000000000000110100101101001000000001\n\
          fit of 64 stations 0000000000000000000000000000000000000000000000000000000000000001 \
            and 0000000000000000000000000000000100000000000000000000000000000000\n\
          fit of 64 stations 0000000000000000000000000000000000000000000000000000000000000001 \
            and 0000000000000000000000000000001000000000000000000000000000000000\n\
          fit of 0 stations  and 00000000000000000000000000000000000000000000000000000000000000002\n\
          fit of 65 stations 01010101010101010101010101010101010101010101010101010101010101010 \
            and 01010101010101010101010101010101010101010101010101010101010101010\n\
          fit of 65 stations 00000000000000000000000000000000000000000000000000000000000000002 and 2101\n\
          fit of 4 stations 0101 and \n\
          fit of 64 stations 0000000000000000000000000000000000000000000000000000000000000000 \
            and 00000000000000000000000000000000000000000000000000000000000000000\n\
          fit of 4 stations 0121 and 010\n\
          fit of 4 stations 0121 and 00000000000000000000000000000000000000000000000000000000000000002\n\
          fit of 4 stations 0121 and 2101\n\
          fit of 4 stations 0101 and 0232\n\
          fit of 64 stations 0000000000000000000000000000000000000000000000000000000000000000 \
            and 0000000000000000000000000000000000000000000000000000000000000002\n\
          fit of 64 stations 0000000000000000000000000000000000000000000000000000000000000002 \
            and 2000000000000000000000000000000000000000000000000000000000000000\n",
        b'\n',
        show_fit,
    );
}
