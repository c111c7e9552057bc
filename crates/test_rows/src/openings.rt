// Drawers and rows in and out of range, and what is refused of them by a plain decision. A refusal stands as 100 times
// its number, and its place; none as 0. These numbers are written out, so that the plain decision is none of the
// library's.
ghost use Rattle.std.specs.Prelude.{◌<◌};

use crate::drawers::Tally;
use crate::{Drawer, cases};
use refusal::Refusal;

pub fn refused(r: Refusal) -> usize {
    (usize::from(refusal::number(r)) * 100).wrapping_add(refusal::place(r))
}

// Of a drawer, where the kind is taken or not.
pub fn drawer_refusal(drawer: Drawer, taken: bool) -> usize {
    if drawer.n == 0 || 64 < drawer.n {
        return 100;
    }
    if drawer.n < drawer.d {
        return 200;
    }
    if taken { 0 } else { 500 }
}

// And a row.
pub fn row_refusal(drawer: Drawer, taken: bool, row: &Row) -> usize {
    let refusal = drawer_refusal(drawer, taken);
    if refusal != 0 {
        return refusal;
    }
    if row.length != drawer.n {
        return 400;
    }
    match row.wrong {
        Some(place) => 300usize.wrapping_add(place),
        None => 0,
    }
}

// How many drawers and kinds there are, in and out of range, and how many rows for each.
pub const DRAWERS: usize = 294;

pub const ROWS: usize = 18;

// 7 numbers of stations, 7 of holes and 6 kinds: drawer i.
pub fn drawer(i: usize) -> Drawer {
    Drawer {
        n: cases::number(b"0 1 2 7 64 65 most", i / 42),
        d: cases::number(b"0 1 2 64 65 66 most", i / 6 % 7),
        kind: cases::byte(b"0 1 2 3 4 255", i % 6),
    }
}

// What a call told, and whether it was due.
#[derive(Clone, Copy)]
pub struct Outcome {
    pub told: usize,
    pub agrees: bool,
}

// Calls of all drawers and kinds, so many of each: how many there were and agreed, the sum of the places told, and how
// many told each number.
pub fn show_calls<const N: usize, F: Fn(Drawer, usize) -> Outcome>(
    numbers: &[u8],
    of_each: usize,
    ask: F,
)
    requires callable { F.IsAlwaysCallable ask }
    requires few { N < 100 }
{
    let mut tally = Tally::default();
    let mut told = [0usize; N];
    for i in 0..DRAWERS {
        for k in 0..of_each {
            let outcome = ask(drawer(i), k);
            tally = tally.with(outcome.agrees, outcome.told % 100);
            let number = outcome.told / 100;
            if number < N {
                told[number] = told[number].wrapping_add(1);
            }
        }
    }
    crate::print_filled(
        b"calls # agreed # places # ",
        &[tally.compared, tally.agreed, tally.sum],
    );
    crate::print_filled(numbers, &told);
}

// A row of ones, of some length, with a wrong byte at a place, from 1, or at none.
#[derive(Clone, Copy)]
pub struct Row {
    pub bytes: [u8; 80],
    pub length: usize,
    pub wrong: Option<usize>,
}

// The place of the wrong byte: none, the first or the last.
fn wrong_place(i: usize, length: usize) -> Option<usize> {
    if length == 0 {
        return None;
    }
    match i {
        0 => None,
        1 => Some(1),
        _ => Some(length),
    }
}

fn bytes_with(wrong: Option<usize>) -> [u8; 80] {
    std::array::from_fn(|i| if wrong == Some(i + 1) { 2 } else { 1 })
}

// Row i.
pub fn numbered(i: usize) -> Row {
    let length = cases::number(b"0 1 2 7 64 65", i / 3 % 6);
    let wrong = wrong_place(i % 3, length);
    Row {
        bytes: bytes_with(wrong),
        length,
        wrong,
    }
}

impl Row {
    pub fn symbols(&self) -> &[u8] {
        cases::part(&self.bytes, 0, self.length)
    }
}
