// Key and class of single rows: specimens, and the refusals in their order. A case is the line that is printed, up to
// the answer.
use necklace::RowKey;
use refusal::Refusal;
use test_rows::{FRESH, cases};

fn print_key(answer: Result<RowKey, Refusal>, n: usize, out: &[u8; 80]) {
    match answer {
        Ok(key) => {
            test_rows::print_row(n, out);
            test_rows::print_filled(b" turn # period #", &[key.rotation, key.period]);
        }
        Err(r) => test_rows::print_refusal(r),
    }
    test_rows::print_as_before(test_rows::count_fresh(out));
}

// The key of a row, with a buffer of 80 bytes, of which some are lent.
fn show_key(line: &[u8]) {
    let digits = cases::word(line, 4);
    let room = cases::number_to(line, 6, 80);
    let row = cases::symbols(digits);
    let mut out = [FRESH; 80];
    let answer = necklace::key(cases::part(&row, 0, digits.len()), &mut out[..room]);
    print_key(answer, digits.len(), &out);
}

// Whether a row is shelved, and without symmetry.
fn show_class(line: &[u8]) {
    let digits = cases::word(line, 4);
    let row = cases::symbols(digits);
    match necklace::class(cases::part(&row, 0, digits.len())) {
        Ok(class) => {
            io::write_all(1, b"shelved ");
            test_rows::print_truth(class.necklace);
            io::write_all(1, b" without symmetry ");
            test_rows::print_truth(class.lyndon);
        }
        Err(r) => test_rows::print_refusal(r),
    }
    io::write_all(1, b"\n");
}

fn show(line: &[u8]) {
    io::write_all(1, line);
    io::write_all(1, b": ");
    if cases::first_byte(line) == b'k' {
        return show_key(line);
    }
    show_class(line);
}

pub fn show_all() {
    cases::each(
        b"key of 6 stations 011000 buffer 80\n\
          key of 6 stations 101010 buffer 80\n\
          key of 1 stations 0 buffer 80\n\
          key of 1 stations 1 buffer 80\n\
          key of 2 stations 10 buffer 2\n\
          key of 4 stations 0110 buffer 4\n\
          key of 10 stations 1011010110 buffer 10\n\
          key of 64 stations 1010101010101010101010101010101010101010101010101010101010101010 buffer 64\n\
          key of 64 stations 1101001011010010000001001000000000000000110100101101001000000100 buffer 65\n\
          key of 0 stations  buffer 0\n\
          key of 65 stations 01010101010101010101010101010101010101010101010101010101010101012 buffer 0\n\
          key of 4 stations 0121 buffer 0\n\
          key of 4 stations 2012 buffer 80\n\
          key of 6 stations 011000 buffer 5\n\
          key of 6 stations 011000 buffer 0\n\
          class of 4 stations 0011\n\
          class of 4 stations 0101\n\
          class of 4 stations 0110\n\
          class of 1 stations 0\n\
          class of 1 stations 1\n\
          class of 2 stations 10\n\
          class of 3 stations 000\n\
          class of 64 stations 0000000000000000000000000000000100000000000000000000000000000001\n\
          class of 64 stations 0000000000000000000000000000000000000000000000000000000000000001\n\
          class of 0 stations \n\
          class of 65 stations 00000000000000000000000000000000000000000000000000000000000000002\n\
          class of 4 stations 0120\n\
          class of 1 stations 3\n",
        b'\n',
        show,
    );
}
