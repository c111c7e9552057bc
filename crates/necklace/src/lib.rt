// Key and class of a row.
#![tactic(auto)]

ghost use Rattle.std.specs.Prelude.{◌≡◌, length};
ghost use Rattle.words.specs.Rotation.{least_rotation};
ghost use Rattle.refusal.specs.Outcomes.{decide, filled};
ghost use Rattle.necklace.specs.Key.{key_given, key_verdict};
ghost use Rattle.necklace.specs.Class.{class_given, class_verdict};

use refusal::Refusal;

pub mod inner;

// The number of a row's least rotation, and the row's period.
#[derive(Clone, Copy)]
pub struct RowKey {
    pub rotation: usize,
    pub period: usize,
}

// Whether a row is a necklace, and whether it is a Lyndon word.
#[derive(Clone, Copy)]
pub struct RowClass {
    pub necklace: bool,
    pub lyndon: bool,
}

// The key of a row: its least rotation, written to the front of `out`.
pub fn key(row: &[u8], out: &mut [u8]) -> Result<RowKey, Refusal>
    ensures answer { result ≡ decide (key_verdict row.now (length out.old)) (key_given row.now) }
    ensures buffer { out.new ≡ filled (key_verdict row.now (length out.old)) (least_rotation row.now) out.old }
{
    let n = row.len();
    if !refusal::are_stations(n) {
        return Err(Refusal::Stations);
    }
    if let Some(place) = words::first_wrong(row, 2) {
        return Err(Refusal::Symbol(place));
    }
    if out.len() < n {
        return Err(Refusal::Buffer);
    }
    let found = inner::least_rotation(row);
    inner::write_rotation(row, found.rotation, out);
    Ok(found)
}

// The class of a row: whether it is a necklace, and whether it is a Lyndon word.
pub fn class(row: &[u8]) -> Result<RowClass, Refusal>
    ensures { result ≡ decide (class_verdict row.now) (class_given row.now) }
{
    let stations = row.len();
    if !refusal::are_stations(stations) {
        return Err(Refusal::Stations);
    }
    if let Some(place) = words::first_wrong(row, 2) {
        return Err(Refusal::Symbol(place));
    }
    let p = words::inner::necklace_period(row);
    Ok(RowClass {
        necklace: p != 0,
        lyndon: p == stations,
    })
}
