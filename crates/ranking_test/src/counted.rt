// The seats of all rows, against counting the rings at or below them one by one.
use crate::asked;
use test_rows::drawers::Tally;
use test_rows::{Drawer, cases};

// The rows rise with their numbers. Summed: the seats.
pub fn compare(drawer: Drawer) -> Tally {
    let n = drawer.n;
    let mut counted: u64 = 0;
    let mut tally = Tally::default();
    for number in 0..1usize << (n % 16) {
        let symbols = test_rows::row_of_number(n, number);
        let row = cases::part(&symbols, 0, n);
        counted = counted.wrapping_add(u64::from(test_rows::is_ring(row, drawer)));
        let seat = asked::seat_of(drawer, row);
        tally = tally.with(seat == Ok(counted), seat.unwrap_or(0) as usize);
    }
    tally
}
