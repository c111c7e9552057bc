// The rings at all seats, against the definitions, and back.
use crate::asked;
use refusal::{MOST_STATIONS, Refusal};
use test_rows::drawers::Tally;
use test_rows::{Drawer, FRESH, cases};

// Whether the buffer has a ring of the drawer at its front, and is otherwise as it was.
fn holds_ring(out: &[u8; MOST_STATIONS], drawer: Drawer) -> bool {
    let row = cases::part(out, 0, drawer.n);
    let fresh = test_rows::count_fresh(cases::part(out, drawer.n, MOST_STATIONS));
    test_rows::is_ring(row, drawer)
        && test_rows::count(row, 0).wrapping_add(drawer.d) == drawer.n
        && drawer.n.wrapping_add(fresh) == MOST_STATIONS
}

// Whether the buffer holds the ring at a seat, where the other holds the ring at the seat below.
fn ring_agrees(
    drawer: Drawer,
    seat: u64,
    out: &[u8; MOST_STATIONS],
    below: &[u8; MOST_STATIONS],
) -> bool {
    let row = cases::part(out, 0, drawer.n);
    let lower = cases::part(below, 0, drawer.n);
    holds_ring(out, drawer)
        && (seat == 1 || test_rows::order(lower, 0, row, 0).is_lt())
        && asked::seat_of(drawer, row) == Ok(seat)
}

// From seat 0 to one above the total: these two are refused, and the buffer is as it was. Summed: the rings.
pub fn compare(drawer: Drawer) -> Tally {
    let total = asked::total(drawer);
    let mut tally = Tally {
        sum: total as usize,
        ..Tally::default()
    };
    let mut below = [FRESH; MOST_STATIONS];
    for seat in 0..total.wrapping_add(2) {
        let mut out = [FRESH; MOST_STATIONS];
        let answer = asked::ring_at(drawer, seat, MOST_STATIONS, &mut out);
        let agrees = if seat == 0 || total < seat {
            answer == Err(Refusal::Seat) && test_rows::count_fresh(&out) == MOST_STATIONS
        } else {
            answer.is_ok() && ring_agrees(drawer, seat, &out, &below)
        };
        tally = tally.with(agrees, 0);
        below = out;
    }
    tally
}
