// The highest row at or below a row that begins a necklace.
ghost use Rattle.std.specs.Prelude.{[], ◌≡◌, ◌≤◌, ◌<◌, length};
ghost use Rattle.counting.specs.InnerBound.{highest_below, highest_up_to, passes};
ghost use Rattle.density.proofs.Binary.{Binary};
ghost use Rattle.lyndon_below.specs.InnerParts.{bound_in};
ghost use Rattle.pascal.specs.Pascal.{last_row};
ghost use Rattle.words.specs.InnerScan.{scan};

// Whether a row begins a necklace.
pub fn begins_necklace(a: &[u8]) -> bool
    requires { 0 < length a.now }
    ensures { result ≡ passes (scan a.now) }
{
    let z = words::inner::leading_zeros(a);
    words::inner::prefix_period(a, z) != 0
}

// The highest below v: a 1 becomes 0, with ones behind it, as far behind as may be.
pub fn highest_below(v: &[u8]) -> Option<[u8; refusal::MOST_STATIONS]>
    requires { (length v.now ≤ last_row) × Binary v.now }
    ensures { bound_in (length v.now) result ≡ highest_below [] v.now }
{
    let mut row = density::rows::padded(v);
    for p in (0..v.len()).rev() {
        let x = row[p];
        row[p] = 0;
        if x == 1 && begins_necklace(&row[..p + 1]) {
            return Some(row);
        }
        row[p] = 1;
    }
    None
}

// The highest at or below v, where v itself is allowed; else below it.
pub fn highest_to(allowed: bool, v: &[u8]) -> Option<[u8; refusal::MOST_STATIONS]>
    requires { (0 < length v.now) × (length v.now ≤ last_row) × Binary v.now }
    ensures { bound_in (length v.now) result ≡ highest_up_to allowed v.now }
{
    if allowed && begins_necklace(v) {
        return Some(density::rows::padded(v));
    }
    highest_below(v)
}
