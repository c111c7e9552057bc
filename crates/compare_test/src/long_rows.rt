// Rows of 300 bytes that differ in one byte, cut at many lengths, both ways round.
ghost use Rattle.std.specs.Prelude.{◌<◌};

use crate::plain::Tally;
use test_rows::cases;

// The bytes fall from 255 to 0, and again from 255.
fn falling() -> [u8; 300] {
    std::array::from_fn(|i| (255 - i % 256) as u8)
}

// A length to cut at: nothing, around a place, or around the end.
fn cut(k: usize, place: usize) -> usize
    requires { place < 300 }
{
    match k {
        0 => 0,
        1 => place,
        2 => place + 1,
        3 => place + 2,
        4 => place + 7,
        5 => place + 8,
        6 => place + 9,
        7 => 299,
        _ => 300,
    }
}

// At each place 81 pairs of lengths. A cut behind the end leaves nothing.
pub fn compare_all() {
    let row = falling();
    let mut tally = Tally::default();
    for pair in 0..24300 {
        let place = pair / 81;
        let mut other = row;
        other[place] = 255 - row[place];
        let a = cases::part(&row, 0, cut(pair / 9 % 9, place));
        let b = cases::part(&other, 0, cut(pair % 9, place));
        tally = tally.with(a, b);
        tally = tally.with(b, a);
    }
    io::write_all(1, b"rows of up to 300 bytes: ");
    tally.print(48600);
}
