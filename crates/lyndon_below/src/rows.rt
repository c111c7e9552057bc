// The rows with a rotation whose power is at or below a row, counted.
ghost use Rattle.std.specs.Prelude.{◌≡◌, ◌*◌, ◌/◌, ◌<◌, length, take};
ghost use Rattle.counting.specs.InnerRoots.{rows_below};
ghost use Rattle.lyndon_below.specs.InnerParts.{Part};
ghost use Rattle.words.proofs.Power.{power};
ghost use Rattle.words.specs.Order.{le};

use crate::tables::Tables;

// Whether the power of w's first m symbols is at or below w: w against itself, m places on.
fn power_at_most(w: &[u8], m: usize) -> bool
    requires { (0 < length w.now) × (m * (length w.now / m) ≡ length w.now) }
    ensures { result ≡ le (power (length w.now / m) (take m w.now)) w.now }
{
    words::compare(&w[..w.len() - m], &w[m..]).order.is_le()
}

// The rows of m symbols and density e with a rotation whose power, as long as w, is at or below w.
pub fn count_below(tables: &mut Tables<'_>, w: &[u8], m: usize, e: usize) -> u64
    requires { Part w.now m e }
    ensures { result ≡ rows_below (length w.now) w.now m e }
{
    let allowed = power_at_most(w, m);
    let Some(row) = crate::bound::highest_to(allowed, &w[..m]) else {
        return 0;
    };
    let above = rows_above::count_above(tables.blocks, &row[..m], e);
    pascal::ways_in(tables.ways, m, e).unwrap() - above
}
