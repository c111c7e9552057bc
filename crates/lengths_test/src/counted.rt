// All limits of a drawer, against counting the rings at or below each one by one; of kind 3, all rows with d holes.
use crate::asked;
use lengths::Length;
use refusal::Refusal;
use test_rows::drawers::Tally;
use test_rows::{Drawer, cases};

fn rows_with(n: usize, d: usize) -> usize {
    let numbers = 0..1usize << (n % 16);
    numbers
        .filter(|number| test_rows::count(&test_rows::row_of_number(n, *number), 1) == d)
        .count()
}

// What a length tells, as a number: 0 where it is refused.
fn rings_told(told: Result<Length, Refusal>) -> usize {
    match told {
        Ok(Length::Exactly(rings)) => rings as usize,
        Ok(Length::AtMost(rings)) => rings as usize,
        Err(_) => 0,
    }
}

// The rows rise with their numbers. Summed: the lengths that are told.
pub fn compare(drawer: Drawer) -> Tally {
    let n = drawer.n;
    let ceiling = rows_with(n, drawer.d);
    let mut rings: usize = 0;
    let mut tally = Tally::default();
    for number in 0..1usize << (n % 16) {
        let symbols = test_rows::row_of_number(n, number);
        let row = cases::part(&symbols, 0, n);
        rings = rings.wrapping_add(usize::from(test_rows::is_ring(row, drawer)));
        let told = asked::length(drawer, row);
        let due = if drawer.kind == 3 {
            Length::AtMost(ceiling as u64)
        } else {
            Length::Exactly(rings as u64)
        };
        tally = tally.with(told == Ok(due), rings_told(told));
    }
    tally
}
