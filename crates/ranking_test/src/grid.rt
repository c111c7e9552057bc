// Calls with numbers in and out of range, in all combinations: what is refused, against a plain decision.
use crate::asked;
use test_rows::openings::Outcome;
use test_rows::{Drawer, FRESH, cases, openings};

// Whether a kind has seats.
fn has_seats(drawer: Drawer) -> bool {
    drawer.kind == 1 || drawer.kind == 2
}

// The seat of row i.
fn ask_seat(drawer: Drawer, i: usize) -> Outcome {
    let row = openings::numbered(i);
    let seat = asked::seat_of(drawer, row.symbols());
    let told = seat.err().map_or(0, openings::refused);
    Outcome {
        told,
        agrees: told == openings::row_refusal(drawer, has_seats(drawer), &row),
    }
}

// What is refused of a seat, with room for so many bytes.
fn ring_refusal(drawer: Drawer, seat: u64, room: usize) -> usize {
    let refusal = openings::drawer_refusal(drawer, has_seats(drawer));
    if refusal != 0 {
        return refusal;
    }
    if room < drawer.n {
        return 900;
    }
    if seat == 0 || asked::total(drawer) < seat {
        1300
    } else {
        0
    }
}

// Whether the buffer is as it was where the seat is refused, and otherwise behind the ring.
fn is_kept(out: &[u8; 80], n: usize, due: usize) -> bool {
    let fresh = test_rows::count_fresh(out);
    if due == 0 {
        return fresh.wrapping_add(n) == 80;
    }
    fresh == 80
}

// How many rooms with seats there are for a drawer.
const SEATS: usize = 20;

fn ask_ring(drawer: Drawer, i: usize) -> Outcome {
    let room = cases::number(b"0 1 7 64 80", i / 4 % 5);
    let seat = cases::number(b"0 1 2 most", i % 4) as u64;
    let mut out = [FRESH; 80];
    let answer = asked::ring_at(drawer, seat, room, &mut out);
    let told = answer.err().map_or(0, openings::refused);
    let due = ring_refusal(drawer, seat, room);
    Outcome {
        told,
        agrees: told == due && is_kept(&out, drawer.n, due),
    }
}

// How many calls told each number.
const NUMBERS: &[u8] = b"given # refused 1 # 2 # 3 # 4 # 5 # 6 # 7 # 8 # 9 # 10 # 11 # 12 # 13 #\n";

pub fn compare_all() {
    io::write_all(1, b"seats of rows: ");
    openings::show_calls::<14, _>(NUMBERS, openings::ROWS, ask_seat);
    io::write_all(1, b"rings at seats: ");
    openings::show_calls::<14, _>(NUMBERS, SEATS, ask_ring);
}
