// The top ring: the largest necklace of length n and density d.
#![tactic(auto)]

ghost use Rattle.std.specs.Prelude.{◌≡◌, ◌-◌, ◌*◌, ◌%◌, ◌<◌, ◌≤◌, length, take};
ghost use Rattle.density.specs.InnerBalanced.{balanced};
ghost use Rattle.density.specs.Necklaces.{largest_necklace};
ghost use Rattle.refusal.specs.Outcomes.{decide, filled};
ghost use Rattle.largest.specs.Top.{top_verdict};
ghost use Rattle.refusal.specs.Verdicts.{most_stations};

use refusal::{Refusal, are_stations};

// The row with few holes, from the row b of its d blocks: a block is n / d - b[k] zeros and a 1.
fn join_few(b: [u8; refusal::MOST_STATIONS], n: usize, d: usize) -> [u8; refusal::MOST_STATIONS]
    requires n_le_most_stations { n ≤ most_stations }
    requires d_nonzero { 0 < d }
    requires d_bound { 2 * d ≤ n }
    requires b_value { take d b ≡ balanced d (d - n % d) }
    ensures { take n result ≡ balanced n d }
{
    let t = n / d;
    let mut row = [0u8; refusal::MOST_STATIONS];
    let mut p: usize = 0;
    for k in 0..d {
        // by `as`, and b[k] by its place: so the answers speak of the symbol itself
        p = p + t + 1 - b[k] as usize;
        row[p - 1] = 1;
    }
    row
}

// The row with many holes, from the row c of its n - d blocks: a block is a 0 and n / (n - d) - 1 + c[k] ones.
fn join_many(c: [u8; refusal::MOST_STATIONS], n: usize, d: usize) -> [u8; refusal::MOST_STATIONS]
    requires n_le_most_stations { n ≤ most_stations }
    requires d_lt_n { d < n }
    requires n_bound { n < 2 * d }
    requires c_value { take (n - d) c ≡ balanced (n - d) (n % (n - d)) }
    ensures { take n result ≡ balanced n d }
{
    let z = n - d;
    let s = n / z;
    let mut row = [1u8; refusal::MOST_STATIONS];
    let mut p: usize = 0;
    for k in 0..z {
        row[p] = 0;
        // the same
        p = p + s + c[k] as usize;
    }
    row
}

// The rule for few holes: the pitches come from the top ring of d stations.
#[cycle(few_holes_many_holes)]
fn few_holes(n: usize, d: usize) -> [u8; refusal::MOST_STATIONS]
    requires n_nonzero { 0 < n }
    requires n_le_most_stations { n ≤ most_stations }
    requires d_bound { 2 * d ≤ n }
    ensures { take n result ≡ balanced n d }
{
    if d == 0 {
        return [0u8; refusal::MOST_STATIONS];
    }
    let e = d - n % d;
    if 2 * e <= d {
        join_few(few_holes(d, e), n, d)
    } else {
        join_few(many_holes(d, e), n, d)
    }
}

// The rule for many holes: the runs of ones come from the top ring of n - d stations.
#[cycle(few_holes_many_holes)]
fn many_holes(n: usize, d: usize) -> [u8; refusal::MOST_STATIONS]
    requires n_le_most_stations { n ≤ most_stations }
    requires d_le_n { d ≤ n }
    requires n_bound { n < 2 * d }
    ensures { take n result ≡ balanced n d }
{
    if d == n {
        return [1u8; refusal::MOST_STATIONS];
    }
    let z = n - d;
    let e = n % z;
    if 2 * e <= z {
        join_many(few_holes(z, e), n, d)
    } else {
        join_many(many_holes(z, e), n, d)
    }
}

// The top ring of (n, d), by the rule that fits its holes.
fn top_row(n: usize, d: usize) -> [u8; refusal::MOST_STATIONS]
    requires n_nonzero { 0 < n }
    requires n_le_most_stations { n ≤ most_stations }
    requires d_le_n { d ≤ n }
    ensures { take n result ≡ largest_necklace n d }
{
    if 2 * d <= n {
        few_holes(n, d)
    } else {
        many_holes(n, d)
    }
}

// Writes the top ring of (n, d) to the front of the buffer.
pub fn largest_necklace(n: usize, d: usize, out: &mut [u8]) -> Result<(), Refusal>
    ensures answer { result ≡ decide (top_verdict n d (length out.old)) tt }
    ensures buffer { out.new ≡ filled (top_verdict n d (length out.old)) (largest_necklace n d) out.old }
{
    if !are_stations(n) {
        return Err(Refusal::Stations);
    }
    if n < d {
        return Err(Refusal::Holes);
    }
    if out.len() < n {
        return Err(Refusal::Buffer);
    }
    let row = top_row(n, d);
    words::inner::write_front(&row[..n], out);
    Ok(())
}
