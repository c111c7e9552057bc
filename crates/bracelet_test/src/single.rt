// The turned-over key of single rows: specimens, and the refusals in their order. A case is the line that is printed,
// up to the answer.
use test_rows::{FRESH, cases};

// The turned-over key of a row, with a buffer of 80 bytes, of which some are lent.
fn show_key(line: &[u8]) {
    io::write_all(1, line);
    io::write_all(1, b": ");
    let digits = cases::word(line, 5);
    let room = cases::number_to(line, 7, 80);
    let row = cases::symbols(digits);
    let mut out = [FRESH; 80];
    let answer = bracelet::turned_key(cases::part(&row, 0, digits.len()), &mut out[..room]);
    test_rows::print_written(answer, digits.len(), &out);
}

pub fn show_all() {
    cases::each(
        b"turned key of 6 stations 001101 buffer 80\n\
          turned key of 6 stations 001011 buffer 80\n\
          turned key of 6 stations 101100 buffer 7\n\
          turned key of 6 stations 000111 buffer 6\n\
          turned key of 6 stations 101010 buffer 80\n\
          turned key of 1 stations 0 buffer 80\n\
          turned key of 1 stations 1 buffer 1\n\
          turned key of 64 stations 1010101010101010101010101010101010101010101010101010101010101010 buffer 64\n\
          turned key of 64 stations 1100100011001000110010001100100011001000110010001100100011001000 buffer 64\n\
          turned key of 64 stations 1101001011010010000001001000000000000000110100101101001000000100 buffer 65\n\
          turned key of 64 stations 0010000001001011010010110000000000000001001000000100101101001011 buffer 80\n\
          turned key of 0 stations  buffer 0\n\
          turned key of 65 stations 01010101010101010101010101010101010101010101010101010101010101012 buffer 0\n\
          turned key of 4 stations 0121 buffer 0\n\
          turned key of 4 stations 2012 buffer 80\n\
          turned key of 64 stations 0000000000000000000000000000000000000000000000000000000000000002 buffer 63\n\
          turned key of 6 stations 001101 buffer 5\n\
          turned key of 6 stations 001101 buffer 0\n\
          turned key of 64 stations 0000000000000000000000000000000000000000000000000000000000000000 buffer 63\n",
        b'\n',
        show_key,
    );
}
