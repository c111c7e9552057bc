// A drawer of a kind, and a limit: whether they meet no condition for the input.
ghost use Rattle.std.specs.Prelude.{◌≡◌};
ghost use Rattle.density.specs.Drawers.{drawer_verdict, open_verdict};
ghost use Rattle.refusal.specs.Outcomes.{decide};

use crate::kinds::is_kind;
use refusal::{Refusal, are_stations};

// Checks (n, d) and a kind.
pub fn check_drawer(n: usize, d: usize, kind: u8) -> Result<(), Refusal>
    ensures { result ≡ decide (drawer_verdict n d kind) tt }
{
    if !are_stations(n) {
        return Err(Refusal::Stations);
    }
    if n < d {
        return Err(Refusal::Holes);
    }
    if !is_kind(kind) {
        return Err(Refusal::Kind);
    }
    Ok(())
}

// Checks (n, d), a kind and a limit.
pub fn check_opening(n: usize, d: usize, kind: u8, limit: &[u8]) -> Result<(), Refusal>
    ensures { result ≡ decide (open_verdict n d kind limit.now) tt }
{
    check_drawer(n, d, kind)?;
    if limit.len() != n {
        return Err(Refusal::Limit);
    }
    if let Some(place) = words::first_wrong(limit, 2) {
        return Err(Refusal::Symbol(place));
    }
    Ok(())
}
