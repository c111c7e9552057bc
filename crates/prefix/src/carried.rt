// What is known of the symbols that a question was about, carried to the next question in place of a new scan.
ghost use Rattle.std.specs.Prelude.{◌≡◌, true, ◌-◌, ◌≤◌, ◌<◌, length, get_or, take};
ghost use Rattle.words.specs.Rotation.{is_necklace};
ghost use Rattle.words.specs.InnerScan.{Leading, coded, scan};
ghost use Rattle.density.specs.Necklaces.{begins, is_necklace_of, of_kind};
ghost use Rattle.words.specs.Symbols.{Within};
ghost use Rattle.prefix.specs.InnerCarried.{Knows, KnowsPrefixes};
ghost use Rattle.refusal.specs.Verdicts.{most_stations};

use extension::{goes_on, ruled_out, search_from};

// What is known of some symbols: their period (0: they begin no necklace), their ones, and with how many zeros they begin. The period is
// a number with 0 for none, as in the row of prefixes, which has 64 of them in 64 bytes; an Option would be told apart at each reading.
// The symbols are no field: the row is changed while they are known.
#[derive(Clone, Copy)]
pub struct Known {
    period: usize,
    ones: usize,
    zeros: usize,
}

// What is known of the prefixes of some symbols: entry i is the period of the first i.
pub type Prefixes = [u8; refusal::MOST_STATIONS];

// The prefixes of some symbols, in one pass. It is the scan of `words::inner::prefix_period`, by == and < as there, and writes down each
// period; where one is asked alone, no row of 64 bytes is made.
pub fn prefixes_of(a: &[u8]) -> Prefixes
    requires { length a.now ≤ most_stations }
    ensures { KnowsPrefixes a.now result }
{
    let mut found = [0u8; refusal::MOST_STATIONS];
    let mut j: usize = 0;
    let mut p: u8 = 1;
    for i in 1..a.len() {
        found[i] = p;
        if a[i] == a[j] {
            j += 1;
        } else {
            if a[i] < a[j] {
                return found;
            }
            j = 0;
            // by `as`: i is below 64, and a try_from would only add an error that never comes
            p = i as u8 + 1;
        }
    }
    found
}

// The period of a, from that of all but its last symbol.
fn period_after(p: usize, a: &[u8]) -> usize
    requires { (0 < length a.now) × (p < length a.now) × (1 < length a.now → coded p ≡ scan (take (length a.now - 1) a.now)) }
    ensures { (coded result ≡ scan a.now) × (result ≤ length a.now) }
{
    let i = a.len() - 1;
    if i == 0 {
        return 1;
    }
    if p == 0 {
        return 0;
    }
    let c = a[i - p];
    if a[i] < c {
        return 0;
    }
    if c < a[i] {
        return i + 1;
    }
    p
}

// With how many zeros a begins, from that of all but its last symbol.
fn zeros_after(z: usize, a: &[u8]) -> usize
    requires { (0 < length a.now) × Leading (take (length a.now - 1) a.now) z × Within 2 a.now }
    ensures { Leading a.now result }
{
    let i = a.len() - 1;
    if a[i] != 0 {
        return z;
    }
    if z == i {
        return i + 1;
    }
    z
}

impl Known {
    // Of a, by its prefixes.
    pub fn read(prefixes: &Prefixes, a: &[u8]) -> Known
        requires { (length a.now ≤ most_stations) × Within 2 a.now × KnowsPrefixes a.now prefixes.now }
        ensures { Knows a.now result }
    {
        let ones = density::count::sum_ones(a);
        let zeros = words::inner::leading_zeros(a);
        if a.len() == 0 {
            return Known {
                period: 0,
                ones,
                zeros,
            };
        }
        let last = a.len() - 1;
        let period = period_after(usize::from(prefixes[last]), a);
        Known {
            period,
            ones,
            zeros,
        }
    }

    // Of all but the last symbol of a, by what is known of a and its prefixes. Of no symbols nothing changes.
    pub fn shorter(self, prefixes: &Prefixes, a: &[u8]) -> Known
        requires { (length a.now ≤ most_stations) × Within 2 a.now × Knows a.now self × KnowsPrefixes a.now prefixes.now }
        ensures { Knows (take (length a.now - 1) a.now) result }
    {
        if a.len() == 0 {
            return self;
        }
        let last = a.len() - 1;
        let period = usize::from(prefixes[last]);
        let ones = self.ones - usize::from(a[last]);
        let zeros = self.zeros;
        if last < zeros {
            return Known {
                period,
                ones,
                zeros: last,
            };
        }
        Known {
            period,
            ones,
            zeros,
        }
    }

    // Of a, by what is known of all but its last symbol.
    pub fn longer(self, a: &[u8]) -> Known
        requires { (0 < length a.now) × (length a.now ≤ most_stations) × Within 2 a.now × Knows (take (length a.now - 1) a.now) self }
        ensures { Knows a.now result }
    {
        let period = period_after(self.period, a);
        let ones = self.ones + usize::from(a[a.len() - 1]);
        let zeros = zeros_after(self.zeros, a);
        Known {
            period,
            ones,
            zeros,
        }
    }

    // The question: whether some necklace of n symbols and density d begins with the first t symbols of a row, which are known.
    pub fn ask(self, n: usize, d: usize, row: [u8; refusal::MOST_STATIONS], t: usize) -> bool
        requires { (0 < n) × (n ≤ most_stations) × (d ≤ n) × (t ≤ n) × Within 2 row × Knows (take t row) self }
        ensures { result ≡ begins n d (take t row) }
    {
        let p = self.period;
        let h = self.ones;
        let z = self.zeros;
        if t == 0 {
            return true;
        }
        if p == 0 || ruled_out(n, d, &row[..t], h, z) {
            return false;
        }
        search_from(row, t, n, d, p, h, z)
    }

    // The same of a, which ends with a 1, where all before that 1 is known and begins such a necklace: no search is needed.
    pub fn ask_with_one(self, n: usize, d: usize, a: &[u8]) -> bool
        requires { (n ≤ most_stations) × (d ≤ n) × (1 < length a.now) × (length a.now ≤ n) × Within 2 a.now × (get_or a.now (length a.now - 1) 0 ≡ 1) × Knows (take (length a.now - 1) a.now) self × (begins n d (take (length a.now - 1) a.now) ≡ true) }
        ensures { result ≡ begins n d a.now }
    {
        let p = self.period;
        let h = self.ones;
        let z = self.zeros;
        let i = a.len() - 1;
        if a[i - p] != 0 {
            return true;
        }
        goes_on(a, n - (i + 1), d, h + 1, z)
    }

    // Whether a, which is known, is a necklace of density d.
    pub fn is_necklace_of(self, d: usize, a: &[u8]) -> bool
        requires { (0 < length a.now) × Within 2 a.now × Knows a.now self }
        ensures { result ≡ is_necklace_of d a.now }
    {
        let p = self.period;
        self.ones == d && words::inner::scanned_period(a, p) != 0
    }

    // Whether a, which is known, is of a kind, if it is a necklace.
    pub fn is_of_kind(self, kind: u8, a: &[u8]) -> bool
        requires { (0 < length a.now) × (length a.now ≤ most_stations) × (is_necklace a.now ≡ true) × Knows a.now self }
        ensures { result ≡ of_kind kind a.now }
    {
        let p = self.period;
        if kind == 1 {
            return true;
        }
        if kind == 2 {
            return words::inner::scanned_period(a, p) == a.len();
        }
        if kind == 3 {
            return bracelet::inner::is_bracelet(a);
        }
        false
    }
}
