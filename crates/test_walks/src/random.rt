// Records at random, most of them near to what a walk hands back.
ghost use Rattle.std.specs.Prelude.{◌<◌};

use walk::{Standing, Walk};

// The next number of a generator.
fn next(x: usize) -> usize
    requires { x < 2147483648 }
    ensures { result < 2147483648 }
{
    (x * 1103515245 + x / 65536 + 12345) % 2147483648
}

// A number below a bound: each record has 80 of them.
pub fn drawn(index: usize, which: usize, bound: usize) -> usize
    requires { 0 < bound }
    ensures { result < bound }
{
    let first = index.wrapping_mul(80).wrapping_add(which) % 2147483648;
    let x = next(next(next(first)));
    x / 65536 % bound
}

// Stations: few, or any number up to 67.
fn stations(index: usize) -> usize
    ensures { result < 68 }
{
    if drawn(index, 64, 2) == 0 {
        return drawn(index, 65, 10);
    }
    drawn(index, 65, 68)
}

// The symbol at a place: in some rows 0, now and then a byte that is none, now and then a 1 behind the row.
fn symbol(index: usize, i: usize, n: usize) -> u8 {
    if drawn(index, 66, 8) == 0 {
        return 0;
    }
    let x = drawn(index, i, 512);
    if x == 0 {
        return 1;
    }
    if n <= i {
        return 0;
    }
    if x == 1 {
        return 2;
    }
    if x == 2 {
        return 255;
    }
    (x % 2) as u8
}

fn row(index: usize, n: usize) -> [u8; refusal::MOST_STATIONS] {
    std::array::from_fn(|i| symbol(index, i, n))
}

// Holes: those of the row, or any number up to one above the stations.
fn holes(index: usize, n: usize, row: &[u8; refusal::MOST_STATIONS]) -> usize
    requires { n < 68 }
{
    if drawn(index, 67, 2) == 0 {
        return drawn(index, 68, n + 2);
    }
    test_rows::count(row, 1)
}

// 1 to 3, now and then 0 or 4.
fn kind(index: usize) -> u8 {
    let x = drawn(index, 69, 32);
    if x == 0 {
        return 0;
    }
    if x == 1 {
        return 4;
    }
    (1 + x % 3) as u8
}

// Any standing, with a place up to one above the stations.
fn standing(index: usize, n: usize) -> Standing
    requires { n < 68 }
{
    let place = drawn(index, 71, n + 2);
    match drawn(index, 70, 5) {
        0 => Standing::Limit,
        1 => Standing::Down(place),
        2 => Standing::Up(place),
        3 => Standing::Given,
        _ => Standing::Ended,
    }
}

// The row kept: the record's own row, zeros for most that are ended, or another.
fn kept(
    index: usize,
    n: usize,
    own: [u8; refusal::MOST_STATIONS],
    at: Standing,
) -> [u8; refusal::MOST_STATIONS] {
    let x = drawn(index, 73, 8);
    if x < 2 {
        return own;
    }
    if x < 7 && matches!(at, Standing::Ended) {
        return [0u8; refusal::MOST_STATIONS];
    }
    row(index.wrapping_add(500000), n)
}

pub fn record(index: usize) -> Walk {
    let n = stations(index);
    let row = row(index, n);
    let d = holes(index, n, &row);
    let at = standing(index, n);
    Walk {
        n,
        d,
        kind: kind(index),
        row,
        at,
        kept: kept(index, n, row, at),
    }
}

// Up to 6 trials, or plenty.
pub fn allowance(index: usize) -> u64 {
    let x = drawn(index, 72, 8);
    if x < 7 { x as u64 } else { 1000 }
}
