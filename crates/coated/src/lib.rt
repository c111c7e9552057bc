// Rings with a coated face: how one row fits another, by turning, by turning over or by both.
#![tactic(auto)]

ghost use Rattle.std.specs.Prelude.{◌≡◌};
ghost use Rattle.refusal.specs.Outcomes.{decide};
ghost use Rattle.coated.specs.Answers.{fit_outcome, fit_verdict};
ghost use Rattle.coated.specs.Fitting.{fit_of};

use refusal::Refusal;

pub mod inner;

// How the first row fits the second, with the signed turn from the one to the other, the nearest to zero.
#[derive(Clone, Copy, PartialEq, Eq)]
pub enum FitAnswer {
    Different,
    // by turning only
    Turning(i64),
    // by turning over only: the first row is reversed, then turned
    Over(i64),
    // by both: the plain turn
    Both(i64),
}

// How the first row fits the second.
pub fn fit(row: &[u8], other: &[u8]) -> Result<FitAnswer, Refusal>
    ensures { fit_outcome result ≡ decide (fit_verdict row.now other.now) (fit_of row.now other.now) }
{
    let n = row.len();
    if !refusal::are_stations(n) {
        return Err(Refusal::Stations);
    }
    if other.len() != n {
        return Err(Refusal::Limit);
    }
    if let Some(place) = words::first_wrong(row, 2) {
        return Err(Refusal::Symbol(place));
    }
    if let Some(place) = words::first_wrong(other, 2) {
        return Err(Refusal::Symbol(place));
    }
    Ok(inner::fit_of(row, other))
}
