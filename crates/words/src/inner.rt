// Helpers for other crates, over rows of any alphabet.
ghost use Rattle.std.specs.Prelude.{◌≡◌, ◌-◌, ◌≤◌, ◌<◌, length};
ghost use Rattle.words.specs.Buffers.{fronted};
ghost use Rattle.words.specs.Rotation.{necklace_period};
ghost use Rattle.words.specs.InnerScan.{Leading, coded, scan};
ghost use Rattle.words.specs.Symbols.{zeros};

// With how many zeros a row begins.
pub fn leading_zeros(a: &[u8]) -> usize
    ensures { Leading a.now result }
{
    a.iter().take_while(|x| **x == 0).count()
}

// The period of a row that begins with z zeros: its first symbols, of that number, are a Lyndon word, and it repeats them.
// 0 if it begins no necklace: the definitions and the records above keep it as one number, so it is no Option.
pub fn prefix_period(a: &[u8], z: usize) -> usize
    requires { (0 < length a.now) × Leading a.now z }
    ensures { (coded result ≡ scan a.now) × (result ≤ length a.now) }
{
    let start = if z < a.len() { z + 1 } else { 1 };
    let mut j: usize = 0;
    for i in start..a.len() {
        // by == and <: a match on `cmp` was tried, slower
        if a[i] == a[j] {
            j += 1;
        } else {
            if a[i] < a[j] {
                return 0;
            }
            j = 0;
        }
    }
    a.len() - j
}

// What the pass over a row finds, as the period of a necklace: 0 where it is none.
pub fn scanned_period(row: &[u8], p: usize) -> usize
    requires { (0 < length row.now) × (coded p ≡ scan row.now) }
    ensures { result ≡ necklace_period row.now }
{
    if p == 0 {
        return 0;
    }
    if row.len() % p == 0 { p } else { 0 }
}

// The period of a necklace, and 0 for a row that is none, in one pass.
pub fn necklace_period(row: &[u8]) -> usize
    requires { 0 < length row.now }
    ensures { result ≡ necklace_period row.now }
{
    let zeros = leading_zeros(row);
    let p = prefix_period(row, zeros);
    scanned_period(row, p)
}

// Writes a row to the front of a buffer that has room for it.
pub fn write_front(row: &[u8], out: &mut [u8])
    requires { length row.now ≤ length out.old }
    ensures { out.new ≡ fronted row.now out.old }
{
    out[..row.len()].copy_from_slice(row);
}
