// Seats of single rows, and rings at single seats: short and longest rows, and the refusals in their order. A case is
// the line that is printed, up to the answer.
use crate::asked;
use test_rows::{Drawer, FRESH, cases};

fn show_seat(drawer: Drawer, digits: &[u8]) {
    let row = cases::symbols(digits);
    match asked::seat_of(drawer, cases::part(&row, 0, digits.len())) {
        Ok(seat) => test_rows::print_named(b"", seat as usize),
        Err(r) => test_rows::print_refusal(r),
    }
    io::write_all(1, b"\n");
}

// A seat in digits, or `most`, the highest number.
fn seat_number(digits: &[u8]) -> u64 {
    if cases::first_byte(digits) == b'm' {
        return u64::MAX;
    }
    let mut seat: u64 = 0;
    for digit in digits {
        seat = seat % 1000000000000000000 * 10 + u64::from(digit % 16);
    }
    seat
}

// The ring that was written, and its seat.
fn print_ring(drawer: Drawer, out: &[u8; 80]) {
    let seat = asked::seat_of(drawer, cases::part(out, 0, drawer.n));
    test_rows::print_row(drawer.n, out);
    test_rows::print_named(b" seat ", seat.unwrap_or(u64::MAX) as usize);
}

// The ring at a seat, with a buffer of 80 bytes, of which some are lent.
fn show_ring(drawer: Drawer, seat: u64, room: usize) {
    let mut out = [FRESH; 80];
    match asked::ring_at(drawer, seat, room, &mut out) {
        Ok(_) => print_ring(drawer, &out),
        Err(r) => test_rows::print_refusal(r),
    }
    test_rows::print_as_before(test_rows::count_fresh(&out));
}

fn show(line: &[u8]) {
    io::write_all(1, line);
    io::write_all(1, b": ");
    let drawer = cases::drawer(line, 1);
    if cases::first_byte(line) == b's' {
        return show_seat(drawer, cases::word(line, 4));
    }
    let seat = seat_number(cases::word(line, 5));
    show_ring(drawer, seat, cases::number(line, 7));
}

pub fn show_all() {
    cases::each(
        b"seat 6 3 1 010101\n\
          seat 6 3 2 010101\n\
          seat 6 3 1 000110\n\
          seat 1 1 1 0\n\
          seat 64 32 1 0101010101010101010101010101010101010101010101010101010101010101\n\
          seat 64 32 2 0101010101010101010101010101010101010101010101010101010101010101\n\
          seat 64 32 1 0111111111111111111111111111111111111111111111111111111111111111\n\
          seat 64 32 1 1111111111111111111111111111111111111111111111111111111111111111\n\
          seat 64 32 2 1111111111111111111111111111111111111111111111111111111111111111\n\
          seat 64 32 1 0000000000000000000000000000000000000000000000000000000000000000\n\
          seat 64 32 1 1010101010101010101010101010101010101010101010101010101010101010\n\
          seat 64 32 1 0000000000000000000000000000000011111111111111111111111111111111\n\
          seat 64 32 2 0010110001011000101100010110001011000101100010110001011000101101\n\
          seat 64 0 2 1111111111111111111111111111111111111111111111111111111111111111\n\
          seat 64 1 2 1111111111111111111111111111111111111111111111111111111111111111\n\
          seat 64 63 1 1111111111111111111111111111111111111111111111111111111111111111\n\
          seat 64 64 1 1111111111111111111111111111111111111111111111111111111111111111\n\
          seat 63 21 1 111111111111111111111111111111111111111111111111111111111111111\n\
          seat 63 21 2 111111111111111111111111111111111111111111111111111111111111111\n\
          seat 60 30 1 111111111111111111111111111111111111111111111111111111111111\n\
          seat 60 30 2 111111111111111111111111111111111111111111111111111111111111\n\
          seat 48 16 1 111111111111111111111111111111111111111111111111\n\
          seat 48 16 2 111111111111111111111111111111111111111111111111\n\
          ring 6 3 1 seat 1 buffer 6\n\
          ring 6 3 2 seat 3 buffer 80\n\
          ring 64 32 1 seat 1 buffer 64\n\
          ring 64 32 1 seat 2 buffer 80\n\
          ring 64 32 1 seat 1000 buffer 80\n\
          ring 64 32 1 seat 28634752211620 buffer 80\n\
          ring 64 32 1 seat 14317376105810133 buffer 80\n\
          ring 64 32 1 seat 28634752211620265 buffer 80\n\
          ring 64 32 1 seat 28634752211620266 buffer 80\n\
          ring 64 32 2 seat 1 buffer 65\n\
          ring 64 32 2 seat 1000 buffer 80\n\
          ring 64 32 2 seat 28634752192836 buffer 80\n\
          ring 64 32 2 seat 14317376096418048 buffer 80\n\
          ring 64 32 2 seat 28634752192836096 buffer 80\n\
          ring 64 0 1 seat 1 buffer 80\n\
          ring 64 63 1 seat 1 buffer 80\n\
          seat 0 1 0 2\n\
          seat 65 66 3 2\n\
          seat most most 1 0\n\
          seat 4 5 3 2\n\
          seat 4 most 1 0101\n\
          seat 4 2 0 0101\n\
          seat 4 2 3 0101\n\
          seat 4 2 3 21\n\
          seat 4 2 255 0121\n\
          seat 4 2 1 012\n\
          seat 4 2 2 01012\n\
          seat 4 2 4 0101\n\
          seat 4 2 1 2013\n\
          seat 4 2 2 0102\n\
          seat 64 32 1 0000000000000000000000000000000000000000211111111111111111111111\n\
          ring 0 1 0 seat 0 buffer 0\n\
          ring 65 66 3 seat 0 buffer 0\n\
          ring 4 5 3 seat 0 buffer 0\n\
          ring 4 2 3 seat 1 buffer 80\n\
          ring 4 2 4 seat 0 buffer 3\n\
          ring 4 2 2 seat 0 buffer 3\n\
          ring 64 32 1 seat 1 buffer 63\n\
          ring 4 2 1 seat 0 buffer 80\n\
          ring 4 2 2 seat 2 buffer 4\n\
          ring 64 32 1 seat 28634752211620267 buffer 80\n\
          ring 64 32 2 seat 28634752192836097 buffer 80\n\
          ring 64 32 2 seat most buffer 80\n\
          ring 64 0 2 seat 1 buffer 80\n",
        b'\n',
        show,
    );
}
