// Helpers over rows that are already checked, of any alphabet.
ghost use Rattle.std.specs.Prelude.{true, ◌≡◌, reverse, ◌<◌, ◌≤◌, length};
ghost use Rattle.words.specs.Buffers.{fronted};
ghost use Rattle.words.specs.Reversal.{is_bracelet};
ghost use Rattle.words.specs.Rotation.{is_necklace};
ghost use Rattle.refusal.specs.Verdicts.{most_stations};

use std::cmp::Ordering;

// Writes the reverse of a row to the front of `out`.
pub fn write_reversed(row: &[u8], out: &mut [u8])
    requires { length row.now ≤ length out.old }
    ensures { out.new ≡ fronted (reverse row.now) out.old }
{
    words::inner::write_front(row, out);
    out[..row.len()].reverse();
}

// Whether a necklace is a bracelet: against the rotations of its reverse, up to the first that is not higher. The reverse is written two
// times, so that each of them is a part without a break.
pub fn is_bracelet(row: &[u8]) -> bool
    requires { (0 < length row.now) × (length row.now ≤ most_stations) × (is_necklace row.now ≡ true) }
    ensures { result ≡ is_bracelet row.now }
{
    let n = row.len();
    let mut back = [0u8; 2 * refusal::MOST_STATIONS];
    write_reversed(row, &mut back);
    write_reversed(row, &mut back[n..]);
    for j in 0..n {
        let compared = words::compare(row, &back[j..j + n]);
        let order = compared.order;
        match order {
            Ordering::Greater => {
                return false;
            }
            // the reverse has the row's own rotations
            Ordering::Equal => {
                return true;
            }
            Ordering::Less => {}
        }
    }
    true
}
