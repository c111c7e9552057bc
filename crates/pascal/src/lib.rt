// The ways to choose k of n, for n up to 64, from a table.
#![tactic(auto)]

mod numbers;

ghost use Rattle.std.specs.Prelude.{◌≡◌, suc};
ghost use Rattle.density.specs.Choose.{choose};
ghost use Rattle.refusal.specs.Outcomes.{decide};
ghost use Rattle.pascal.specs.Answers.{ways_verdict};
ghost use Rattle.pascal.specs.Pascal.{entry_of, last_row, triangle};

use refusal::Refusal;

// The last row of the table: the most stations that are counted.
pub const LAST_ROW: usize = 64;

// How many numbers the rows 0 to 64 have.
pub const ENTRIES: usize = 2145;

// The whole table. It is copied, so a caller that reads many entries keeps it and lends it.
pub fn triangle() -> [u64; ENTRIES]
    ensures { result ≡ triangle (suc last_row) }
{
    numbers::TRIANGLE
}

// The entry for (top, bottom) of a table that is lent; of the triangle, the ways to choose.
pub fn ways_in(table: &[u64; ENTRIES], top: usize, bottom: usize) -> Result<u64, Refusal>
    ensures { result ≡ decide (ways_verdict top bottom) (entry_of table.now top bottom) }
{
    if LAST_ROW < top {
        return Err(Refusal::Stations);
    }
    if top < bottom {
        return Err(Refusal::Holes);
    }
    Ok(table[top * (top + 1) / 2 + bottom])
}

// The ways to choose bottom stations of top: a single look-up.
pub fn ways(top: usize, bottom: usize) -> Result<u64, Refusal>
    ensures { result ≡ decide (ways_verdict top bottom) (choose top bottom) }
{
    let table = triangle();
    ways_in(&table, top, bottom)
}
