// Whether symbols go on to a necklace of (n, d), in about n steps. What is known of them is handed in.
#![tactic(auto)]

ghost use Rattle.std.specs.Prelude.{◌≡◌, true, false, ◌-◌, ◌≤◌, ◌<◌, length, take};
ghost use Rattle.words.specs.Symbols.{sum, Within};
ghost use Rattle.words.specs.InnerScan.{Leading};
ghost use Rattle.density.specs.Necklaces.{begins};
ghost use Rattle.extension.specs.InnerSearch.{fits, continues};
ghost use Rattle.refusal.specs.Verdicts.{most_stations};

// Whether the Lyndon word g, of density h, begins a necklace of density d with m more symbols. g begins with z zeros
// and a 1. The largest necklace of those symbols is compared with g: its first 1 by a product, the symbols behind it
// from an error term.
pub fn goes_on(g: &[u8], m: usize, d: usize, h: usize, z: usize) -> bool
    requires { (m ≤ most_stations) × (h ≡ sum g.now) × (z < length g.now) × (length g.now ≤ most_stations) × Leading g.now z × Within 2 g.now }
    ensures { result ≡ fits d m g.now }
{
    if d < h {
        return false;
    }
    let e = d - h;
    if m < e {
        return false;
    }
    if m <= z * e {
        return true;
    }
    let first = (z + 1) * e;
    if first < m {
        return false;
    }
    let mut error: usize = first - m;
    for k in z + 1..g.len() {
        if m <= k {
            return false;
        }
        let mut s: u8 = 0;
        error += e;
        if m <= error {
            error -= m;
            s = 1;
        }
        // by two tests, each with its own answer: a match on `cmp` names the third case too
        if g[k] < s {
            return true;
        }
        if s < g[k] {
            return false;
        }
    }
    true
}

// Whether the first t symbols of x, of period p and density h, begin a necklace of n symbols and density d.
// They begin with z zeros. They go on with the period, place by place, or leave it upwards.
pub fn search_from(
    mut x: [u8; refusal::MOST_STATIONS],
    t: usize,
    n: usize,
    d: usize,
    p: usize,
    h: usize,
    mut z: usize,
) -> bool
    requires { (0 < p) × (p ≤ t) × (t ≤ n) × (n ≤ most_stations) × (h ≡ sum (take t x)) × (h ≤ t) × Within 2 x × Leading (take t x) z }
    ensures { result ≡ continues d p (n - t) (take t x) }
{
    let mut ones = h;
    for i in t..n {
        let c = x[i - p];
        x[i] = 1;
        if c == 0 {
            if goes_on(&x[..i + 1], n - (i + 1), d, ones + 1, z) {
                return true;
            }
            if z == i {
                z = i + 1;
            }
        }
        x[i] = c;
        ones += usize::from(c);
    }
    n % p == 0 && ones == d
}

// Whether the counts rule a prefix out, which has h ones and begins with z zeros: too many or too few ones are to come,
// or too few for so many places, since no run of zeros is longer than the first.
pub fn ruled_out(n: usize, d: usize, prefix: &[u8], h: usize, z: usize) -> bool
    requires { (n ≤ most_stations) × (d ≤ n) × (length prefix.now ≤ n) × (h ≡ sum prefix.now) × Leading prefix.now z × Within 2 prefix.now }
    ensures { result ≡ true → begins n d prefix.now ≡ false }
{
    if d < h {
        return true;
    }
    let e = d - h;
    let more = n - prefix.len();
    if more < e {
        return true;
    }
    if z < prefix.len() {
        return (z + 1) * e < more;
    }
    false
}
