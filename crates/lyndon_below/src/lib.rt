// The Lyndon words whose power is at or below a row, for each divisor of its length, by the rows that have a rotation
// so.
#![tactic(auto)]

mod bound;
mod rows;
pub mod tables;

ghost use Rattle.std.specs.Prelude.{◌≡◌, ℕ, pred, suc, ◌+◌, ◌*◌, ◌≤◌, ◌<◌, ◌^◌, length};
ghost use Rattle.counting.specs.InnerRoots.{lyndon_below};
ghost use Rattle.counting.specs.InnerSums.{total, upto};
ghost use Rattle.lyndon_below.specs.InnerTables.{Given, Known, named, taken};
ghost use Rattle.pascal.specs.Pascal.{last_row};

use tables::Tables;

// The lengths, 0 to 64.
pub const LENGTHS: usize = 65;

// The entry of m / (j + 1) symbols where j + 1 divides m and e, and 0 elsewhere.
fn entry(t: &[u64; LENGTHS], m: usize, e: usize, j: usize) -> u64
    requires { (m ≤ last_row) × (j ≤ last_row) }
    ensures { result ≡ named t.now m e j }
{
    let k = j + 1;
    if m % k != 0 {
        return 0;
    }
    if e % k != 0 {
        return 0;
    }
    t[m / k]
}

// What the shorter Lyndon words take from the rows of m symbols and density e.
fn shorter_sum(t: &[u64; LENGTHS], m: usize, e: usize) -> u64
    requires { (0 < m) × (m ≤ last_row) × (total (taken t.now m e) (upto (pred m)) < 2 ^ 64) }
    ensures { result ≡ total (taken t.now m e) (upto (pred m)) }
{
    let mut sum: u64 = 0;
    for j in 1..m {
        // `as`: no `From` makes a u64 of a usize
        sum += (m / (j + 1)) as u64 * entry(t, m, e, j);
    }
    sum
}

// The Lyndon words of all lengths n / k, where k divides n and d.
pub fn common_sum(t: &[u64; LENGTHS], n: usize, d: usize) -> u64
    requires { (n ≤ last_row) × (total (named t.now n d) (upto n) < 2 ^ 64) }
    ensures { result ≡ total (named t.now n d) (upto n) }
{
    let mut sum: u64 = 0;
    for j in 0..n {
        sum += entry(t, n, d, j);
    }
    sum
}

// The Lyndon words of m symbols, at the density that fits m as d fits w; 0 where none fits.
fn count_of_length(tables: &mut Tables<'_>, t: &[u64; LENGTHS], w: &[u8], d: usize, m: usize) -> u64
    requires { (0 < m) × (m ≤ length w.now) × Given w.now d × Known t.now w.now d m }
    ensures { (k c : ℕ) → k * m ≡ length w.now → k * c ≡ d → result ≡ lyndon_below (length w.now) w.now m c }
{
    let n = w.len();
    if n % m != 0 {
        return 0;
    }
    let k = n / m;
    if d % k != 0 {
        return 0;
    }
    let e = d / k;
    let rows = rows::count_below(tables, w, m, e);
    let shorter = shorter_sum(t, m, e);
    // `as`: no `From` makes a u64 of a usize
    (rows - shorter) / (m as u64)
}

// The table for all divisors, shorter ones first.
pub fn count_all(tables: &mut Tables<'_>, w: &[u8], d: usize) -> [u64; LENGTHS]
    requires { Given w.now d }
    ensures { Known result w.now d (length w.now + 1) }
{
    let mut t = [0u64; LENGTHS];
    for m in 1..w.len() + 1 {
        t[m] = count_of_length(tables, &t, w, d, m);
    }
    t
}
