// Pitch lists: a row as the numbers of stations from one hole on to the next, the hole itself counted.
#![tactic(auto)]

ghost use Rattle.std.specs.Prelude.{◌≡◌, ◌≤◌, ◌<◌, true, length};
ghost use Rattle.words.specs.Buffers.{fronted};
ghost use Rattle.words.specs.Symbols.{place_found, zeros};
ghost use Rattle.density.specs.Density.{density};
ghost use Rattle.pitches.specs.Pitches.{adds_up, first_zero, row_of_pitches, pitches_of_row, has_pitch_list};
ghost use Rattle.pitches.specs.Answers.{row_verdict, list_verdict};
ghost use Rattle.refusal.specs.Outcomes.{decide, filled};

use refusal::Refusal;

// The place, from 1, of the first pitch of 0, if there is one.
fn first_zero(pitches: &[usize]) -> Option<usize>
    ensures { result ≡ place_found (first_zero pitches.now) }
{
    pitches.iter().position(|pitch| *pitch == 0).map(|k| k + 1)
}

// Whether the pitches add up to n stations. An empty list does to any. Nothing is summed, so nothing wraps.
fn adds_up(n: usize, pitches: &[usize]) -> bool
    ensures { result ≡ adds_up n pitches.now }
{
    if pitches.len() == 0 {
        return true;
    }
    let mut left = n;
    for pitch in pitches {
        if left < *pitch {
            return false;
        }
        left -= pitch;
    }
    left == 0
}

// Zeros to the front of a buffer.
fn clear(n: usize, out: &mut [u8])
    requires { n ≤ length out.old }
    ensures { out.new ≡ fronted (zeros n) out.old }
{
    out[..n].fill(0);
}

// The row of a pitch list to the front of a buffer: zeros, and then a hole at the end of each pitch.
fn write_row(n: usize, pitches: &[usize], out: &mut [u8])
    requires n_in_bounds { n ≤ length out.old }
    requires pitches_value { first_zero pitches.now ≡ 0 }
    requires pitches_value_2 { adds_up n pitches.now ≡ true }
    ensures { out.new ≡ fronted (row_of_pitches n pitches.now) out.old }
{
    clear(n, out);
    let mut place: usize = 0;
    for pitch in pitches {
        place += pitch;
        out[place - 1] = 1;
    }
}

// Pitch list to row.
pub fn row_of_pitches(n: usize, pitches: &[usize], out: &mut [u8]) -> Result<(), Refusal>
    ensures answer { result ≡ decide (row_verdict n pitches.now (length out.old)) tt }
    ensures buffer { out.new ≡ filled (row_verdict n pitches.now (length out.old)) (row_of_pitches n pitches.now) out.old }
{
    if !refusal::are_stations(n) {
        return Err(Refusal::Stations);
    }
    if n < pitches.len() {
        return Err(Refusal::Holes);
    }
    if let Some(place) = first_zero(pitches) {
        return Err(Refusal::ZeroPitch(place));
    }
    if !adds_up(n, pitches) {
        return Err(Refusal::PitchSum);
    }
    if out.len() < n {
        return Err(Refusal::Buffer);
    }
    write_row(n, pitches, out);
    Ok(())
}

// Whether a row with so many holes has a pitch list: it has no hole, or ends in one.
fn has_pitch_list(row: &[u8], holes: usize) -> bool
    requires { (0 < length row.now) × (holes ≡ density row.now) }
    ensures { result ≡ has_pitch_list row.now }
{
    if holes == 0 {
        return true;
    }
    row[row.len() - 1] == 1
}

// The pitches of a row to the front of a buffer; how many there are.
fn write_pitches(row: &[u8], out: &mut [usize]) -> usize
    requires { length (pitches_of_row row.now) ≤ length out.old }
    ensures count { result ≡ length (pitches_of_row row.now) }
    ensures buffer { out.new ≡ fronted (pitches_of_row row.now) out.old }
{
    let mut k: usize = 0;
    let mut pitch: usize = 1;
    for x in row {
        if *x == 0 {
            pitch += 1;
        } else {
            out[k] = pitch;
            k += 1;
            pitch = 1;
        }
    }
    k
}

// Row to pitch list.
pub fn pitches_of_row(row: &[u8], out: &mut [usize]) -> Result<usize, Refusal>
    ensures answer { result ≡ decide (list_verdict row.now (length out.old)) (length (pitches_of_row row.now)) }
    ensures buffer { out.new ≡ filled (list_verdict row.now (length out.old)) (pitches_of_row row.now) out.old }
{
    let n = row.len();
    if !refusal::are_stations(n) {
        return Err(Refusal::Stations);
    }
    if let Some(place) = words::first_wrong(row, 2) {
        return Err(Refusal::Symbol(place));
    }
    let holes = density::count::count_ones(row);
    if !has_pitch_list(row, holes) {
        return Err(Refusal::LastPlain);
    }
    if out.len() < holes {
        return Err(Refusal::Buffer);
    }
    Ok(write_pitches(row, out))
}
