// Rows in arrays of the most stations.
ghost use Rattle.std.specs.Prelude.{◌≡◌, ◌&&◌, ◌++◌, ℕ, ◌-◌, ◌≤◌, leb, length};
ghost use Rattle.words.specs.Symbols.{all_up_to, zeros};
ghost use Rattle.density.specs.Rows.{is_padded};
ghost use Rattle.refusal.specs.Verdicts.{most_stations};

// A row and zeros behind it.
pub fn padded(a: &[u8]) -> [u8; refusal::MOST_STATIONS]
    requires { length a.now ≤ most_stations }
    ensures { result ≡ a.now ++ zeros (most_stations - length a.now) }
{
    let mut row = [0u8; refusal::MOST_STATIONS];
    words::inner::write_front(a, &mut row);
    row
}

// The highest symbol of two rows of one length, 0 of empty rows. Without an early exit, the loop runs on vectors.
pub fn highest_of_two(s: &[u8], t: &[u8]) -> u8
    requires { length s.now ≡ length t.now }
    ensures { (b : ℕ) → (all_up_to b s.now && all_up_to b t.now) ≡ leb result b }
{
    let mut most: u8 = 0;
    // by places: over a zip the proof knows the symbols by what was yielded, and says more
    for i in 0..s.len() {
        most = most.max(s[i]).max(t[i]);
    }
    most
}

// Whether each of two arrays holds a row of n symbols, and zeros behind it.
pub fn are_padded(row: &[u8], other: &[u8], n: usize) -> bool
    requires { (n ≤ length row.now) × (length row.now ≡ length other.now) }
    ensures { result ≡ (is_padded n row.now && is_padded n other.now) }
{
    highest_of_two(row, other) <= 1 && highest_of_two(&row[n..], &other[n..]) == 0
}
