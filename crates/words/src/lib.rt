// Rows over any alphabet: the comparison of two rows, and the search for a wrong symbol.
#![tactic(auto)]

pub mod inner;

ghost use Rattle.std.specs.Prelude.{◌≡◌};
ghost use Rattle.words.specs.Difference.{first_difference};
ghost use Rattle.words.specs.Order.{cmp, order_of};
ghost use Rattle.words.specs.Pairs.{pairs};
ghost use Rattle.words.specs.Symbols.{first_wrong, place_found};

use std::cmp::Ordering;

// The order of two rows; the place, from 1, where they first differ, 0 for equal rows; how many pairs of words and bytes were compared.
#[derive(Clone, Copy)]
pub struct Compared {
    pub order: Ordering,
    pub place: usize,
    pub pairs: usize,
}

// The dictionary order of two rows of any lengths. Over the shorter length, words of eight bytes are compared, and what remains singly. It
// leaves at the first difference.
pub fn compare(a: &[u8], b: &[u8]) -> Compared
    ensures order { result.order ≡ order_of (cmp a.now b.now) }
    ensures place { result.place ≡ first_difference a.now b.now }
    ensures pairs { result.pairs ≡ pairs a.now b.now }
{
    let shorter = a.len().min(b.len());
    let words = shorter / byte_words::WORD;
    for k in 0..words {
        let x = byte_words::word_at(a, k * byte_words::WORD);
        let y = byte_words::word_at(b, k * byte_words::WORD);
        if x != y {
            return Compared {
                order: x.cmp(&y),
                place: k * byte_words::WORD + byte_words::equal_bytes(x, y) + 1,
                pairs: k + 1,
            };
        }
    }
    for i in words * byte_words::WORD..shorter {
        if a[i] != b[i] {
            return Compared {
                order: a[i].cmp(&b[i]),
                place: i + 1,
                pairs: words + i % byte_words::WORD + 1,
            };
        }
    }
    let pairs = words + shorter % byte_words::WORD;
    if a.len() == b.len() {
        return Compared {
            order: Ordering::Equal,
            place: 0,
            pairs,
        };
    }
    Compared {
        order: a.len().cmp(&b.len()),
        place: shorter + 1,
        pairs,
    }
}

// The place, from 1, of the first symbol of a row that is not below k, if there is one.
pub fn first_wrong(row: &[u8], k: u8) -> Option<usize>
    ensures { result ≡ place_found (first_wrong k row.now) }
{
    // by `?`: with `map` a search over 48 to 95 symbols doesn't run on vectors
    let i = row.iter().position(|x| k <= *x)?;
    Some(i + 1)
}
