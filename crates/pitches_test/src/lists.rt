// Pitch lists of single rows, and rows of pitch lists: specimens, and the refusals in their order.
use refusal::Refusal;
use test_rows::{FRESH, cases};

// What a buffer of pitches holds before it is lent: no pitch of a row.
pub const FRESH_PITCH: usize = 99;

fn print_pitches(count: usize, list: &[usize; 80]) {
    for pitch in list.iter().take(count) {
        test_rows::print_named(b" ", *pitch);
    }
}

// How many numbers of the buffer are as they were.
fn count_fresh_pitches(buffer: &[usize; 80]) -> usize {
    buffer.iter().filter(|pitch| **pitch == FRESH_PITCH).count()
}

fn print_list(answer: Result<usize, Refusal>, out: &[usize; 80]) {
    match answer {
        Ok(k) => {
            test_rows::print_filled(b"pitches #:", &[k]);
            print_pitches(k, out);
        }
        Err(r) => test_rows::print_refusal(r),
    }
    test_rows::print_as_before(count_fresh_pitches(out));
}

// The pitch list of a row, with a buffer of 80 numbers, of which some are lent. The line is printed up to the answer.
fn show_list(line: &[u8]) {
    let digits = cases::word(line, 5);
    let room = cases::number_to(line, 7, 80);
    let row = cases::symbols(digits);
    let mut out = [FRESH_PITCH; 80];
    let answer = pitches::pitches_of_row(cases::part(&row, 0, digits.len()), &mut out[..room]);
    io::write_all(1, line);
    io::write_all(1, b": ");
    print_list(answer, &out);
}

// The pitches of a line.
fn pitches_in(line: &[u8]) -> [usize; 80] {
    std::array::from_fn(|k| cases::number(line, 9 + k))
}

// The row of a pitch list, with a buffer of 80 bytes, of which some are lent.
fn show_row(line: &[u8]) {
    let n = cases::number(line, 2);
    let room = cases::number_to(line, 5, 80);
    let count = cases::number_to(line, 7, 80);
    let list = pitches_in(line);
    let mut out = [FRESH; 80];
    let answer = pitches::row_of_pitches(n, &list[..count], &mut out[..room]);
    test_rows::print_filled(b"row of # stations and # pitches", &[n, count]);
    print_pitches(count, &list);
    test_rows::print_filled(b" buffer #: ", &[room]);
    test_rows::print_written(answer, n, &out);
}

fn show(line: &[u8]) {
    if cases::first_byte(line) == b'r' {
        return show_row(line);
    }
    show_list(line);
}

pub fn show_all() {
    cases::each(
        b"row of 8 stations buffer 80 and 3 pitches 3 3 2\n\
          row of 5 stations buffer 80 and 0 pitches\n\
          row of 1 stations buffer 1 and 1 pitches 1\n\
          row of 64 stations buffer 64 and 64 pitches 1 1 1 1 1 1 1 1 1 1 1 1 1 1 1 1 1 1 1 1 1 1 1 1 1 1 1 1 1 1 1 1 \
            1 1 1 1 1 1 1 1 1 1 1 1 1 1 1 1 1 1 1 1 1 1 1 1 1 1 1 1 1 1 1 1\n\
          row of 64 stations buffer 64 and 1 pitches 64\n\
          row of 0 stations buffer 80 and 0 pitches\n\
          row of 65 stations buffer 80 and 1 pitches 65\n\
          row of 0 stations buffer 0 and 3 pitches 3 0 3\n\
          row of 2 stations buffer 0 and 3 pitches 3 0 3\n\
          row of 64 stations buffer 0 and 65 pitches 1 1 1 1 1 1 1 1 1 1 1 1 1 1 1 1 1 1 1 1 1 1 1 1 1 1 1 1 1 1 1 1 \
            1 1 1 1 1 1 1 1 1 1 1 1 1 1 1 1 1 1 1 1 1 1 1 1 1 1 1 1 1 1 1 1 1\n\
          row of 8 stations buffer 80 and 1 pitches 0\n\
          row of 8 stations buffer 80 and 3 pitches 0 3 5\n\
          row of 8 stations buffer 80 and 3 pitches 3 5 0\n\
          row of 8 stations buffer 0 and 5 pitches 3 0 3 0 0\n\
          row of 8 stations buffer 80 and 2 pitches most 0\n\
          row of 8 stations buffer 80 and 3 pitches 3 3 3\n\
          row of 8 stations buffer 0 and 3 pitches 3 3 3\n\
          row of 8 stations buffer 80 and 2 pitches 3 3\n\
          row of 8 stations buffer 80 and 3 pitches 2 2 1\n\
          row of 8 stations buffer 80 and 1 pitches most\n\
          row of 8 stations buffer 80 and 2 pitches most 9\n\
          row of 8 stations buffer 80 and 3 pitches 1 most 8\n\
          row of 8 stations buffer 80 and 3 pitches most most 10\n\
          row of 8 stations buffer 7 and 3 pitches 3 3 2\n\
          row of 5 stations buffer 4 and 0 pitches\n\
          pitch list of 8 stations 00100101 buffer 80\n\
          pitch list of 5 stations 00000 buffer 80\n\
          pitch list of 5 stations 00000 buffer 0\n\
          pitch list of 1 stations 1 buffer 1\n\
          pitch list of 64 stations 1111111111111111111111111111111111111111111111111111111111111111 buffer 64\n\
          pitch list of 64 stations 0000000000000000000000000000000000000000000000000000000000000001 buffer 1\n\
          pitch list of 0 stations  buffer 80\n\
          pitch list of 65 stations 20000000000000000000000000000000000000000000000000000000000000010 buffer 0\n\
          pitch list of 4 stations 0120 buffer 0\n\
          pitch list of 2 stations 10 buffer 80\n\
          pitch list of 2 stations 10 buffer 0\n\
          pitch list of 8 stations 00100101 buffer 2\n",
        b'\n',
        show,
    );
}
