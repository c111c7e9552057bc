// For the test programs: rows of walk records as numbers; records at random; the drawer's book, by a plain listing.
#![tactic(auto)]

pub mod book;
pub mod random;

ghost use Rattle.std.specs.Prelude.{◌≤◌};

use refusal::Refusal;
use test_rows::{Drawer, cases};
use walk::{Answer, Opened, Walk};

pub fn open(drawer: Drawer, limit: &[u8]) -> Opened {
    Walk::open(drawer.n, drawer.d, drawer.kind, limit)
}

// The place, from 1, where the first n symbols first differ; 0 where they are the same.
pub fn first_difference(
    n: usize,
    row: &[u8; refusal::MOST_STATIONS],
    other: &[u8; refusal::MOST_STATIONS],
) -> usize {
    let mut pairs = row.iter().zip(other).take(n);
    pairs.position(|(x, y)| x != y).map_or(0, |i| i + 1)
}

// What is left of a number, divided by a prime, that has these digits to a base.
pub fn remainder(digits: &[u8], base: usize) -> usize
    requires { base ≤ 256 }
{
    let mut rest: usize = 0;
    for digit in digits {
        rest = (rest * base + usize::from(*digit)) % 10007;
    }
    rest
}

// ---- sums, none above a billion

pub fn plus(x: usize, y: usize) -> usize {
    let most: usize = 1000000000;
    if most < x || most < y {
        return most;
    }
    x + y
}

// ---- printing

// The end of a line: yes or no.
pub fn print_truth(holds: bool) {
    io::write_all(1, b" ");
    test_rows::print_truth(holds);
    io::write_all(1, b"\n");
}

// What a step says.
pub fn print_said(said: Result<Answer, Refusal>) {
    match said {
        Ok(Answer::Ring) => {
            io::write_all(1, b": ring");
        }
        Ok(Answer::None) => {
            io::write_all(1, b": none");
        }
        Err(r) => test_rows::print_named(b": refused ", usize::from(refusal::number(r))),
    }
}

pub fn print_row(walk: Walk) {
    io::write_all(1, b" row ");
    test_rows::print_row(walk.n, &walk.row);
}

// The first n symbols as a number, as far as there are so many.
pub fn number_of(n: usize, row: &[u8; refusal::MOST_STATIONS]) -> usize {
    remainder(cases::part(row, 0, n.min(refusal::MOST_STATIONS)), 2)
}

// The row and the row kept, as numbers.
pub fn rows_of(walk: Walk) -> usize {
    plus(number_of(walk.n, &walk.row), number_of(walk.n, &walk.kept))
}
