// Compares two rows many times and prints the sum of what was told. Read: the length of the rows, the place where they
// differ or 0, the way (0 without comparing, 1 byte by byte, 2 the library's), and the times in hundreds, a byte each.
#![tactic(auto)]

mod by_bytes;

ghost use Rattle.std.specs.Prelude.{◌<◌};

use std::cmp::Ordering;
use test_rows::cases;
use words::Compared;

fn order_number(order: Ordering) -> usize {
    match order {
        Ordering::Less => 0,
        Ordering::Equal => 1,
        Ordering::Greater => 2,
    }
}

fn told(compared: Compared) -> usize {
    let places = compared.place.wrapping_add(compared.pairs);
    places.wrapping_add(order_number(compared.order))
}

fn compared(way: u8, a: &[u8], b: &[u8]) -> usize {
    match way {
        0 => a.len(),
        1 => told(by_bytes::compare(a, b)),
        _ => told(words::compare(a, b)),
    }
}

// Bytes that alternate from turn to turn.
fn bit(turn: usize) -> u8 {
    (turn % 2) as u8
}

// Rows of n bytes that agree, but for the byte behind `before` others where they are apart. That byte is another one in
// each turn, so that the compiler can't leave out a comparison.
fn compare_rows(n: usize, before: usize, apart: usize, way: u8, turns: usize)
    requires { before < 256 }
{
    let mut row = [0u8; 256];
    let mut other = [0u8; 256];
    let mut sum: usize = 0;
    for turn in 0..turns {
        row[before] = bit(turn);
        other[before] = bit(turn.wrapping_add(apart));
        let a = cases::part(&row, 0, n);
        let b = cases::part(&other, 0, n);
        sum = sum.wrapping_add(compared(way, a, b));
    }
    // by `as`: no From leads from a usize to a u64
    io::print_decimal(1, sum as u64);
    io::write_all(1, b"\n");
}

fn main() {
    let mut asked = [0u8; 4];
    if io::read_full(0, &mut asked) < 4 {
        return;
    }
    let [length, place, way, hundreds] = asked;
    let n = usize::from(length);
    let turns = usize::from(hundreds) * 100;
    if place == 0 {
        compare_rows(n, 0, 0, way, turns);
    } else {
        compare_rows(n, usize::from(place - 1), 1, way, turns);
    }
}
