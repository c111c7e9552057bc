// Rings that may be turned over: the turned-over key of a row.
#![tactic(auto)]

ghost use Rattle.std.specs.Prelude.{◌≡◌, length};
ghost use Rattle.words.specs.Reversal.{turned_key};
ghost use Rattle.refusal.specs.Outcomes.{decide, filled};
ghost use Rattle.necklace.specs.Key.{key_verdict};

use refusal::Refusal;

pub mod inner;

// The turned-over key of a row, written to the front of `out`: the key, unless the reverse has a lower one. It is refused as the key is, and
// "returns no number".
pub fn turned_key(row: &[u8], out: &mut [u8]) -> Result<(), Refusal>
    ensures answer { result ≡ decide (key_verdict row.now (length out.old)) tt }
    ensures buffer { out.new ≡ filled (key_verdict row.now (length out.old)) (turned_key row.now) out.old }
{
    necklace::key(row, out)?;
    let n = row.len();
    if inner::is_bracelet(&out[..n]) {
        return Ok(());
    }
    let mut back = [0u8; refusal::MOST_STATIONS];
    inner::write_reversed(row, &mut back);
    let over = &back[..n];
    let least = necklace::inner::least_rotation(over);
    necklace::inner::write_rotation(over, least.rotation, out);
    Ok(())
}
