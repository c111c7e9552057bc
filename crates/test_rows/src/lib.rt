// Rows for the test programs: written as digits or numbered, and searched in the plainest way. A row of n stations is a
// slice of n symbols, the front of an array of 64.
//
// Numbers go between usize and u64, and down to a byte, by `as`, here and in the test programs: no From leads there.
#![tactic(auto)]

pub mod cases;
pub mod drawers;
pub mod openings;

use refusal::{MOST_STATIONS, Refusal};
use std::cmp::Ordering;

// What a buffer holds before it is lent: no symbol.
pub const FRESH: u8 = 7;

// Stations, holes and kind.
#[derive(Clone, Copy, PartialEq, Eq)]
pub struct Drawer {
    pub n: usize,
    pub d: usize,
    pub kind: u8,
}

pub fn print_named(name: &[u8], n: usize) {
    io::write_all(1, name);
    io::print_decimal(1, n as u64);
}

// A text, with a number in place of each '#'.
pub fn print_filled(text: &[u8], numbers: &[usize]) {
    for (k, n) in numbers.iter().enumerate() {
        print_named(cases::piece(text, b'#', k), *n);
    }
    io::write_all(1, cases::piece(text, b'#', numbers.len()));
}

pub fn print_refusal(r: Refusal) {
    print_named(b"refused ", usize::from(refusal::number(r)));
    print_named(b" place ", refusal::place(r));
}

// What was compared, how many there were, and how many agreed.
pub fn print_counts(what: &[u8], compared: usize, agreed: usize) {
    io::write_all(1, what);
    print_filled(b" compared # agreed #\n", &[compared, agreed]);
}

// The same, of things with numbers below a count.
pub fn show_agreeing<F: Fn(usize) -> bool>(what: &[u8], count: usize, agrees: F)
    requires { F.IsAlwaysCallable agrees }
{
    let numbers = 0..count;
    print_counts(what, count, numbers.filter(|i| agrees(*i)).count());
}

pub fn print_truth(said: bool) {
    if said {
        io::write_all(1, b"yes");
    } else {
        io::write_all(1, b"no");
    }
}

// The first n symbols, as far as there are so many.
pub fn print_row(n: usize, row: &[u8]) {
    for x in row.iter().take(n) {
        io::print_decimal(1, u64::from(*x));
    }
}

// How many bytes of a sort there are.
pub fn count(bytes: &[u8], sort: u8) -> usize {
    bytes.iter().filter(|x| **x == sort).count()
}

// How many bytes of the buffer are as they were.
pub fn count_fresh(buffer: &[u8]) -> usize {
    count(buffer, FRESH)
}

// The end of a line: how much of a buffer is as it was.
pub fn print_as_before(fresh: usize) {
    print_filled(b" as before #\n", &[fresh]);
}

// An answer and its buffer: the row that was written, or the refusal, and how much of the buffer is as it was.
pub fn print_written(answer: Result<(), Refusal>, n: usize, out: &[u8]) {
    match answer {
        Ok(_) => print_row(n, out),
        Err(r) => print_refusal(r),
    }
    print_as_before(count_fresh(out));
}

// How many symbols stand behind the first 1 of a number in binary.
pub fn stations(number: usize) -> usize {
    if number == 0 {
        return 0;
    }
    number.ilog2() as usize
}

// The row of n stations whose symbols are the last binary digits of a number, in front of zeros.
pub fn row_of_number(n: usize, number: usize) -> [u8; MOST_STATIONS] {
    let mut row = [0u8; MOST_STATIONS];
    let mut rest = number;
    for i in (0..n).rev() {
        if i < MOST_STATIONS {
            row[i] = (rest % 2) as u8;
        }
        rest /= 2;
    }
    row
}

// The same row, as digits.
pub fn digits_of_number(n: usize, number: usize) -> [u8; MOST_STATIONS] {
    row_of_number(n, number).map(|x| b'0' + x % 2)
}

// Symbol k of turn j.
pub fn symbol(row: &[u8], j: usize, k: usize) -> u8 {
    if row.is_empty() {
        return 0;
    }
    row[j.wrapping_add(k) % row.len()]
}

// The row of n symbols that repeats a row, in front of zeros.
pub fn repeated(row: &[u8], n: usize) -> [u8; MOST_STATIONS] {
    std::array::from_fn(|i| if i < n { symbol(row, 0, i) } else { 0 })
}

// The row reversed, in front of zeros.
pub fn reversed(row: &[u8]) -> [u8; MOST_STATIONS] {
    let n = row.len();
    std::array::from_fn(|i| if i < n { row[n - 1 - i] } else { 0 })
}

// Turn j of a row against turn i of another, place by place.
pub fn order(row: &[u8], j: usize, other: &[u8], i: usize) -> Ordering {
    for k in 0..row.len() {
        let order = symbol(row, j, k).cmp(&symbol(other, i, k));
        if order.is_ne() {
            return order;
        }
    }
    Ordering::Equal
}

// Whether no turn lies below turn j.
pub fn is_least(row: &[u8], j: usize) -> bool {
    (0..row.len()).all(|i| order(row, i, row, j).is_ge())
}

// The smallest turn from 1 that gives the row back.
pub fn period(row: &[u8]) -> usize {
    let mut turns = 1..row.len();
    turns
        .find(|j| order(row, *j, row, 0).is_eq())
        .unwrap_or(row.len())
}

// Whether a turn that is not whole gives the row back.
pub fn has_symmetry(row: &[u8]) -> bool {
    period(row) != row.len()
}

// Whether the row is a ring of the drawer, of kind 1 or 2.
pub fn is_ring(row: &[u8], drawer: Drawer) -> bool {
    if count(row, 1) != drawer.d {
        return false;
    }
    if !is_least(row, 0) {
        return false;
    }
    drawer.kind == 1 || !has_symmetry(row)
}

// ---- all rows of 1 to 10 stations, which are numbered: a binary 1 and then the symbols

pub const SHORT_ROWS: usize = 2046;

// Of how many of them something holds.
pub fn count_short<F: Fn(&[u8]) -> bool>(holds: F) -> usize
    requires { F.IsAlwaysCallable holds }
{
    let numbers = 2..2 + SHORT_ROWS;
    numbers
        .filter(|number| {
            let n = stations(*number);
            let row = row_of_number(n, *number);
            holds(cases::part(&row, 0, n))
        })
        .count()
}

// Of how many of the rows of 11 to 64 stations that repeat them.
pub fn count_repeated<F: Fn(&[u8]) -> bool>(holds: F) -> usize
    requires { F.IsAlwaysCallable holds }
{
    let numbers = 2..2 + SHORT_ROWS;
    numbers
        .filter(|number| {
            let n = stations(*number);
            let m = 11 + number % 54;
            let short = row_of_number(n, *number);
            let row = repeated(cases::part(&short, 0, n), m);
            holds(cases::part(&row, 0, m))
        })
        .count()
}
