// The two operations, asked of a drawer.
use refusal::Refusal;
use test_rows::{Drawer, cases};

pub fn seat_of(drawer: Drawer, row: &[u8]) -> Result<u64, Refusal> {
    ranking::rank(drawer.n, drawer.d, drawer.kind, row)
}

// The seat of n ones; where there is none, the highest number.
pub fn total(drawer: Drawer) -> u64 {
    let ones = [1u8; refusal::MOST_STATIONS];
    seat_of(drawer, cases::part(&ones, 0, drawer.n)).unwrap_or(u64::MAX)
}

// Asks for the ring at a seat, with a part of the buffer lent, or all of it where it is shorter.
pub fn ring_at(drawer: Drawer, seat: u64, room: usize, out: &mut [u8]) -> Result<(), Refusal> {
    let lent = room.min(out.len());
    ranking::unrank(drawer.n, drawer.d, drawer.kind, seat, &mut out[..lent])
}
