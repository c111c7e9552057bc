// Bytes and numbers of a text, read at a place. A place past the end has nothing behind it.
ghost use Rattle.std.specs.Prelude.{◌≡◌, ◌+◌, ◌-◌, ◌<◌, ◌≤◌, length, drop};
ghost use Rattle.words.specs.Tests.{is_prefix};
ghost use Rattle.text.specs.Parts.{belongs as Parts·belongs, run, numeral_at, spaced_at};

use crate::{Bytes, Numeral};

// Whether a byte is of a sort.
pub fn belongs(sort: Bytes, byte: u8) -> bool
    ensures { result ≡ Parts·belongs sort byte }
{
    match sort {
        Bytes::Digits => byte.is_ascii_digit(),
        Bytes::Unspaced => byte != b' ' && byte != b'\n',
    }
}

// What stands from a place on.
fn from(text: &[u8], at: usize) -> &[u8]
    ensures { result.now ≡ drop at text.now }
{
    &text[at.min(text.len())..]
}

// How many bytes of a sort stand at a place.
pub fn run_at(text: &[u8], at: usize, sort: Bytes) -> usize
    ensures run { result ≡ length (run sort (drop at text.now)) }
    ensures inside { 0 < result → at + result ≤ length text.now }
{
    from(text, at)
        .iter()
        .take_while(|b| belongs(sort, **b))
        .count()
}

// Whether a word stands at a place.
pub fn stands_at(text: &[u8], at: usize, word: &[u8]) -> bool
    ensures { result ≡ is_prefix word.now (drop at text.now) }
{
    from(text, at).starts_with(word)
}

// The value of a digit.
fn digit(byte: u8) -> usize
    ensures { (result ≡ byte - 48) × (result < 256) }
{
    usize::from(byte.saturating_sub(b'0'))
}

// The number at a place.
pub fn numeral_at(text: &[u8], at: usize) -> Option<Numeral>
    ensures { result ≡ numeral_at text.now at }
{
    let count = run_at(text, at, Bytes::Digits);
    if count == 0 || 3 < count {
        return None;
    }
    let first = digit(text[at]);
    if count == 1 {
        return Some(Numeral {
            value: first,
            next: at + 1,
        });
    }
    if text[at] == b'0' {
        return None;
    }
    let second = first * 10 + digit(text[at + 1]);
    if count == 2 {
        return Some(Numeral {
            value: second,
            next: at + 2,
        });
    }
    let value = second * 10 + digit(text[at + 2]);
    Some(Numeral {
        value,
        next: at + 3,
    })
}

// The number at a place, with a space behind it.
pub fn spaced_at(text: &[u8], at: usize) -> Option<Numeral>
    ensures { result ≡ spaced_at text.now at }
{
    let numeral = numeral_at(text, at)?;
    if !stands_at(text, numeral.next, b" ") {
        return None;
    }
    Some(Numeral {
        next: numeral.next + 1,
        ..numeral
    })
}
