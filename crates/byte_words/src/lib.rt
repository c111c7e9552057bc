// Words of eight bytes, as numbers.
#![tactic(auto)]

ghost use Rattle.std.specs.Prelude.{◌≡◌, ℕ, ◌+◌, ◌/◌, ◌≤◌, length, get_or};
ghost use Rattle.std.specs.Int.Bits.{bit_xor};
ghost use Rattle.std.specs.Int.Count.{count_leading_zeros};
ghost use Rattle.byte_words.specs.Number.{high_first};

// How many bytes a word has.
pub const WORD: usize = 8;

// The word that a row has behind i bytes: a number, the first byte the highest. Of this form the compiler makes one load and one byte swap.
pub fn word_at(row: &[u8], i: usize) -> u64
    requires { i + 8 ≤ length row.now }
    ensures { result ≡ high_first 8 (λ k. get_or row.now (i + k) 0) }
{
    u64::from_be_bytes(row[i..i + WORD].try_into().unwrap())
}

// How many bytes of two words are equal before the first that differ.
pub fn equal_bytes(x: u64, y: u64) -> usize
    ensures { (result ≡ count_leading_zeros 64 (bit_xor x y) / 8) × (result ≤ 8) }
{
    // by `as`: no From leads from a u32 to a usize
    (x ^ y).leading_zeros() as usize / 8
}
