// The rows all of whose rotations are above a row that begins a necklace, counted by blocks: the row cut before a 0,
// and a 1 behind it.
#![tactic(auto)]

ghost use Rattle.std.specs.Prelude.{◌≡◌, ◌+◌, ◌-◌, ◌≤◌, ◌<◌, length};
ghost use Rattle.counting.specs.InnerRoots.{rows_above};
ghost use Rattle.rows_above.specs.InnerTables.{Added, Cleared, Filled, Opening, SumsFit, table_size};

// The entries of a table: for each number of ones from 0 to 64, one for each number of zeros.
pub const TABLE_SIZE: usize = 4225;

// The numbers of zeros, 0 to 64.
const WIDTH: usize = 65;

// Sets k entries of the table to 0, from a place on.
fn clear(t: &mut [u64; TABLE_SIZE], to: usize, k: usize)
    requires { (length t.old ≡ table_size) × (to + k ≤ table_size) }
    ensures { Cleared t.old t.new to k }
{
    t[to..to + k].fill(0);
}

// Adds k entries to k others behind them. The loop runs on vectors.
fn add(t: &mut [u64; TABLE_SIZE], to: usize, from: usize, k: usize)
    requires { (length t.old ≡ table_size) × (to + k ≤ table_size) × (from + k ≤ to) × SumsFit t.old to from k }
    ensures { Added t.old t.new to from k }
{
    for j in 0..k {
        t[to + j] += t[from + j];
    }
}

// Fills the entries of g ones and at most so many zeros: a block for each 0 of v.
fn fill_row(t: &mut [u64; TABLE_SIZE], v: &[u8], g: usize, zeros: usize)
    requires { (0 < g) × (g + zeros ≤ length v.now) × Opening v.now × (length t.old ≡ table_size) × Filled v.now t.old g zeros }
    ensures { (length t.new ≡ table_size) × Filled v.now t.new (g + 1) zeros }
{
    clear(t, g * WIDTH, zeros + 1);
    // a `while`: the two counts share the steps, and either may end them
    let mut ones: usize = 0;
    let mut passed: usize = 0;
    while ones < g && passed <= zeros {
        if v[ones + passed] == 0 {
            add(
                t,
                g * WIDTH + passed,
                (g - 1 - ones) * WIDTH,
                zeros + 1 - passed,
            );
            passed += 1;
        } else {
            ones += 1;
        }
    }
}

// The rows above v of density e, from the table: each block of s + 1 symbols counts s + 1 times.
fn above_from(t: &[u64; TABLE_SIZE], v: &[u8], e: usize) -> u64
    requires { (e ≤ length v.now) × Opening v.now × Filled v.now t.now e (length v.now - e) }
    ensures { result ≡ rows_above v.now e }
{
    let mut sum: u64 = 0;
    let mut ones = e;
    let mut zeros = v.len() - e;
    // a `while`: it ends with the ones, and a `for` over v would need the same test within
    let mut s: usize = 0;
    while 0 < ones {
        if v[s] == 0 {
            // `as`: no `From` makes a u64 of a usize
            sum += (s as u64 + 1) * t[(ones - 1) * WIDTH + zeros];
            if zeros == 0 {
                return sum;
            }
            zeros -= 1;
        } else {
            ones -= 1;
        }
        s += 1;
    }
    sum
}

// The rows of as many symbols as v, of density e, all of whose rotations are above v. The table is lent: what it holds
// does not matter.
pub fn count_above(t: &mut [u64; TABLE_SIZE], v: &[u8], e: usize) -> u64
    requires { Opening v.now × (e ≤ length v.now) × (length t.old ≡ table_size) }
    ensures { (result ≡ rows_above v.now e) × (length t.new ≡ table_size) }
{
    let zeros = v.len() - e;
    clear(t, 0, zeros + 1);
    t[0] = 1;
    for g in 1..e {
        fill_row(t, v, g, zeros);
    }
    above_from(&*t, v, e)
}
