// The prefix question: does some necklace of length n and density d begin with a given prefix?
#![tactic(auto)]

pub mod carried;

ghost use Rattle.std.specs.Prelude.{◌≡◌};
ghost use Rattle.refusal.specs.Outcomes.{decide};
ghost use Rattle.density.specs.Necklaces.{begins};
ghost use Rattle.prefix.specs.Question.{question_verdict};

use carried::Known;
use refusal::Refusal;

// The prefix question: yes or no.
pub fn ask(n: usize, d: usize, prefix: &[u8]) -> Result<bool, Refusal>
    ensures { result ≡ decide (question_verdict n d prefix.now) (begins n d prefix.now) }
{
    if !refusal::are_stations(n) {
        return Err(Refusal::Stations);
    }
    if n < d {
        return Err(Refusal::Holes);
    }
    if n < prefix.len() {
        return Err(Refusal::Prefix);
    }
    if let Some(place) = words::first_wrong(prefix, 2) {
        return Err(Refusal::Symbol(place));
    }
    let row = density::rows::padded(prefix);
    let prefixes = carried::prefixes_of(prefix);
    let yes = Known::read(&prefixes, prefix).ask(n, d, row, prefix.len());
    Ok(yes)
}
