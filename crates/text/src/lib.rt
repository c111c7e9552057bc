// Pieces of text: bytes and numbers read at a place, pieces put into a lent buffer.
#![tactic(auto)]

pub mod read;
pub mod symbols;
pub mod write;

// A sort of bytes: the digits, or the bytes of a line that are no spaces.
#[derive(Clone, Copy, PartialEq, Eq)]
pub enum Bytes {
    Digits,
    Unspaced,
}

// A number that was read, and the place behind it.
#[derive(Clone, Copy, PartialEq, Eq)]
pub struct Numeral {
    pub value: usize,
    pub next: usize,
}
