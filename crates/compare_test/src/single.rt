// Single pairs of rows. A case is the line that is printed, up to the answer.
use std::cmp::Ordering;
use test_rows::cases;

fn print_order(order: Ordering) {
    let name: &[u8] = match order {
        Ordering::Less => b": lower",
        Ordering::Equal => b": equal",
        Ordering::Greater => b": higher",
    };
    io::write_all(1, name);
}

fn show(line: &[u8]) {
    let digits = cases::word(line, 1);
    let other_digits = cases::word(line, 3);
    let row = cases::symbols(digits);
    let other = cases::symbols(other_digits);
    let compared = words::compare(
        cases::part(&row, 0, digits.len()),
        cases::part(&other, 0, other_digits.len()),
    );
    io::write_all(1, line);
    print_order(compared.order);
    test_rows::print_filled(b" place # pairs #\n", &[compared.place, compared.pairs]);
}

pub fn show_all() {
    // one row begins the other, then rows that differ, then equal rows; last, rows of words that differ in the first,
    // in the second, behind them
    cases::each(
        b"row 01 against 010\n\
          row 010 against 01\n\
          row  against 0\n\
          row 0 against \n\
          row  against 1000000000\n\
          row 0000000 against 00000000\n\
          row 00000000 against 000000000\n\
          row 1111111111111111111111111111111111111111111111111111111111111111 \
            against 11111111111111111111111111111111111111111111111111111111111111110\n\
          row 0 against 1\n\
          row 1 against 0\n\
          row 00011000 against 00010101\n\
          row 00010101 against 00011000\n\
          row 00100100 against 00011001\n\
          row 0101 against 0011\n\
          row 1 against 0111111\n\
          row 0111111 against 1\n\
          row 0000000100 against 00000000\n\
          row 2 against 11\n\
          row 0109 against 0103\n\
          row 0000000000000000000000000000000000000000000000000000000000000001 \
            against 0000000000000000000000000000000000000000000000000000000000000000\n\
          row  against \n\
          row 0 against 0\n\
          row 010 against 010\n\
          row 0000000000000000000000000000000000000000000000000000000000000001 \
            against 0000000000000000000000000000000000000000000000000000000000000001\n\
          row 0120120120120120 against 0120120020120120\n\
          row 0000000100000000 against 0000000011111111\n\
          row 0123456701234567 against 0123456701234576\n\
          row 01234567012345670 against 01234567012345671\n\
          row 01234567012345670120 against 01234567012345670129012345\n\
          row 0123456701234567012 against 01234567012345670129012345\n",
        b'\n',
        show,
    );
}
