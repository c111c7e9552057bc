// Rows of 0 to 40 bytes by rows of 0 to 40, which first differ at every place of both or at none, each a part of a
// larger row that begins behind 0 to 9 bytes of it.
use crate::plain::Tally;
use test_rows::cases;

// The bytes that the rows are made of.
fn byte(k: usize) -> u8 {
    match k % 5 {
        0 => 0,
        1 => 1,
        2 => 127,
        3 => 128,
        _ => 255,
    }
}

// What stands behind i bytes of a part that agrees with another in so many: behind them `here`, and then `later`.
fn symbol(i: usize, agree: usize, here: u8, later: u8) -> u8 {
    if i < agree {
        return byte(i % 7);
    }
    if i == agree { here } else { later }
}

// The larger row, with a part that begins behind `start` bytes; `around` stands in front of the part and behind it.
fn larger(start: usize, n: usize, agree: usize, here: u8, later: u8, around: u8) -> [u8; 64] {
    let mut row = [around; 64];
    for (i, x) in row.iter_mut().skip(start).take(n).enumerate() {
        *x = symbol(i, agree, here, later);
    }
    row
}

// Each of 100 pairs of starts, and each of the 20 pairs of unequal bytes five times. Behind the first difference the
// bytes differ the other way.
fn compare_starts(m: usize, n: usize, agree: usize, so_far: Tally) -> Tally {
    let mut tally = so_far;
    for k in 0..100 {
        let start = k / 10;
        let other_start = k % 10;
        let pair = (k + m % 20 + 3 * (agree % 20)) % 20;
        let x = byte(pair / 4);
        let y = byte(pair / 4 + 1 + pair % 4);
        let row = larger(start, m, agree, x, y, 255);
        let other = larger(other_start, n, agree, y, x, 0);
        let a = cases::part(&row, start, m.saturating_add(start));
        let b = cases::part(&other, other_start, n.saturating_add(other_start));
        tally = tally.with(a, b);
    }
    tally
}

// The parts agree in 0, 1, .. bytes, up to all of the shorter.
fn compare_lengths(m: usize, n: usize, so_far: Tally) -> Tally {
    let mut tally = so_far;
    for agree in 0..=m.min(n) {
        tally = compare_starts(m, n, agree, tally);
    }
    tally
}

pub fn compare_all() {
    let mut tally = Tally::default();
    for lengths in 0..1681 {
        tally = compare_lengths(lengths / 41, lengths % 41, tally);
    }
    io::write_all(1, b"parts of up to 40 bytes: ");
    tally.print(2382100);
}
