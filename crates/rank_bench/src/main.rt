// Works out the seat of a row, the ring at a seat, or the length of a drawer from a limit, some times, and prints the
// sum of the seats, the ring, or the sum of the lengths. Read: the bytes n, d, kind, which, how often, and eight bytes
// of a number, the highest first. Which: 0 the seat of the row of the number's last n binary digits, 1 the ring at the
// seat of that number, 2 the length from that row.
#![tactic(auto)]

use lengths::Length;
use test_rows::{Drawer, cases};

fn seat_of(drawer: Drawer, row: &[u8]) -> u64 {
    ranking::rank(drawer.n, drawer.d, drawer.kind, row).unwrap_or(0)
}

fn length_of(drawer: Drawer, row: &[u8]) -> u64 {
    match lengths::drawer_length(drawer.n, drawer.d, drawer.kind, row) {
        Ok(Length::Exactly(x)) => x,
        Ok(Length::AtMost(x)) => x,
        Err(_) => 0,
    }
}

fn counted(which: u8, drawer: Drawer, row: &[u8]) -> u64 {
    if which == 0 {
        seat_of(drawer, row)
    } else {
        length_of(drawer, row)
    }
}

fn show_sum(which: u8, drawer: Drawer, number: u64, times: u8) {
    let symbols = test_rows::row_of_number(drawer.n, number as usize);
    let row = cases::part(&symbols, 0, drawer.n);
    let mut sum: u64 = 0;
    for _ in 0..times {
        sum = sum.wrapping_add(counted(which, drawer, row));
    }
    test_rows::print_named(b"", sum as usize);
}

fn show_ring(drawer: Drawer, seat: u64, times: u8) {
    let mut ring = [0u8; refusal::MOST_STATIONS];
    for _ in 0..times {
        let _ = ranking::unrank(drawer.n, drawer.d, drawer.kind, seat, &mut ring);
    }
    test_rows::print_row(drawer.n, &ring);
}

fn main() {
    let mut asked = [0u8; 13];
    if io::read_full(0, &mut asked) < 13 {
        return;
    }
    let drawer = Drawer {
        n: usize::from(asked[0]),
        d: usize::from(asked[1]),
        kind: asked[2],
    };
    let number = asked
        .last_chunk()
        .map_or(0, |bytes| u64::from_be_bytes(*bytes));
    if asked[3] == 1 {
        show_ring(drawer, number, asked[4]);
    } else {
        show_sum(asked[3], drawer, number, asked[4]);
    }
    io::write_all(1, b"\n");
}
