// The density of a row.
ghost use Rattle.std.specs.Prelude.{◌≡◌, ◌≤◌, length};
ghost use Rattle.words.specs.Symbols.{Within, sum};
ghost use Rattle.density.specs.Density.{density};
ghost use Rattle.refusal.specs.Verdicts.{most_stations};

// How many symbols of a row are 1.
pub fn count_ones(row: &[u8]) -> usize
    ensures { (result ≡ density row.now) × (result ≤ length row.now) }
{
    let mut ones: usize = 0;
    // by places, so that it runs on vectors: over a chain of filter and count each symbol is a branch
    for i in 0..row.len() {
        if row[i] == 1 {
            ones += 1;
        }
    }
    ones
}

// The same for a row of zeros and ones, of at most 64. A sum of bytes runs on vectors.
pub fn sum_ones(row: &[u8]) -> usize
    requires { (length row.now ≤ most_stations) × Within 2 row.now }
    ensures { (result ≡ sum row.now) × (result ≤ length row.now) }
{
    let ones: u8 = row.iter().sum();
    usize::from(ones)
}
