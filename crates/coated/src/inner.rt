// Helpers over rows of one length that are already checked, of any alphabet.
ghost use Rattle.std.specs.Prelude.{◌≡◌, ◌<◌, ◌≤◌, length};
ghost use Rattle.words.specs.Order.{same};
ghost use Rattle.words.specs.Rotation.{rotation};
ghost use Rattle.refusal.specs.Verdicts.{most_stations};
ghost use Rattle.coated.specs.Answers.{fit_told, turn_found};
ghost use Rattle.coated.specs.Fitting.{fit_of, nearest_turn, rotates_to};

use crate::FitAnswer;

// Whether the rotation by j of a row is another row: its tail against the front of that, then its head against the
// rest.
pub fn is_rotation(row: &[u8], j: usize, other: &[u8]) -> bool
    requires { (j ≤ length row.now) × (length other.now ≡ length row.now) }
    ensures { result ≡ same (rotation j row.now) other.now }
{
    let tail = row.len() - j;
    // equal rows have the place 0 (words: NoDifference)
    let front = words::compare(&row[j..], &other[..tail]);
    if front.place != 0 {
        return false;
    }
    let rest = words::compare(&row[..j], &other[tail..]);
    rest.place == 0
}

// The signed turn from one row to another, the nearest to zero, if there is one: 0, 1, -1, 2, -2 and so on, each of the n turns is tried
// once.
pub fn nearest_turn(row: &[u8], other: &[u8]) -> Option<i64>
    requires { (0 < length row.now) × (length row.now ≤ most_stations) × (length other.now ≡ length row.now) }
    ensures { result ≡ turn_found (rotates_to row.now other.now) (nearest_turn row.now other.now) }
{
    let n = row.len();
    for k in 0..(n + 1) / 2 {
        if is_rotation(row, n - k, other) {
            return Some(-(k as i64));
        }
        let up = k + 1;
        if up <= n - up && is_rotation(row, up, other) {
            return Some(up as i64);
        }
    }
    None
}

// How a row fits another.
pub fn fit_of(row: &[u8], other: &[u8]) -> FitAnswer
    requires { (0 < length row.now) × (length row.now ≤ most_stations) × (length other.now ≡ length row.now) }
    ensures { fit_told result ≡ fit_of row.now other.now }
{
    let n = row.len();
    let mut back = [0u8; refusal::MOST_STATIONS];
    bracelet::inner::write_reversed(row, &mut back);
    let plain = nearest_turn(row, other);
    let over = nearest_turn(&back[..n], other);
    match (plain, over) {
        (None, None) => FitAnswer::Different,
        (Some(s), None) => FitAnswer::Turning(s),
        (None, Some(t)) => FitAnswer::Over(t),
        (Some(s), Some(_)) => FitAnswer::Both(s),
    }
}
