// Cases written as text: a line for each, of words with a space between them. A text that is out of range is empty.
ghost use Rattle.std.specs.Prelude.{◌<◌, ◌≤◌};

use crate::Drawer;

// A text from a place up to another.
pub fn part<'a>(text: &'a [u8], from: usize, to: usize) -> &'a [u8] {
    text.get(from..to).unwrap_or(&[])
}

// Shows each piece of a text, of which each is ended by a byte of a sort.
pub fn each<F: FnMut(&[u8])>(text: &[u8], sort: u8, mut show: F)
    requires { F.IsAlwaysCallable show }
{
    for piece in text.split_inclusive(|byte| *byte == sort) {
        show(piece.strip_suffix(&[sort]).unwrap_or(piece));
    }
}

// What stands behind k bytes of a sort, or behind the last of them, up to the next.
pub fn piece<'a>(text: &'a [u8], sort: u8, k: usize) -> &'a [u8] {
    let pieces = text.split(|byte| *byte == sort);
    pieces.take(k.saturating_add(1)).last().unwrap_or(text)
}

pub fn word<'a>(line: &'a [u8], k: usize) -> &'a [u8] {
    piece(line, b' ', k)
}

// Word k of a line as a number: up to three digits, or `most`, the highest.
pub fn number(line: &[u8], k: usize) -> usize {
    let digits = word(line, k);
    if 3 < digits.len() {
        return usize::MAX;
    }
    let mut value: usize = 0;
    for digit in digits {
        value = (value * 10 + usize::from(digit % 16)) % 1000;
    }
    value
}

// Word k of a line as a number, or the bound where it is above.
pub fn number_to(line: &[u8], k: usize, bound: usize) -> usize
    ensures { result ≤ bound }
{
    number(line, k).min(bound)
}

// Word k of a line as a byte, or 255 where it is above.
pub fn byte(line: &[u8], k: usize) -> u8 {
    number_to(line, k, 255) as u8
}

// Words k to k + 2 of a line as a drawer.
pub fn drawer(line: &[u8], k: usize) -> Drawer
    requires { k < 1000 }
{
    Drawer {
        n: number(line, k),
        d: number(line, k + 1),
        kind: byte(line, k + 2),
    }
}

// The symbols of some digits, up to 80, in front of zeros.
pub fn symbols(digits: &[u8]) -> [u8; 80] {
    std::array::from_fn(|i| digits.get(i).map_or(0, |digit| digit % 16))
}

// The first byte, or 0.
pub fn first_byte(text: &[u8]) -> u8 {
    text.first().copied().unwrap_or(0)
}
