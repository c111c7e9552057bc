// The length of a drawer, before it is opened. Nothing is walked.
#![tactic(auto)]

ghost use Rattle.std.specs.Prelude.{◌≡◌};
ghost use Rattle.density.specs.Choose.{choose};
ghost use Rattle.density.specs.Drawers.{open_verdict};
ghost use Rattle.density.specs.Lengths.{drawer_length};
ghost use Rattle.lengths.specs.Answers.{length_outcome};
ghost use Rattle.pascal.specs.Answers.{ways_verdict};
ghost use Rattle.refusal.specs.Outcomes.{decide};
ghost use Rattle.refusal.specs.Verdicts.{accepted};

use density::drawers::check_opening;
use refusal::Refusal;

// How many rings a walk has to give.
#[derive(Clone, Copy, PartialEq, Eq)]
pub enum Length {
    Exactly(u64),
    AtMost(u64),
}

// A ceiling on the rings of a drawer: the ways to choose d stations of n.
fn ceiling(n: usize, d: usize) -> u64
    requires { ways_verdict n d ≡ accepted }
    ensures { result ≡ choose n d }
{
    pascal::ways(n, d).unwrap()
}

// The length of a drawer from a limit: of kinds 1 and 2 exactly the rings that a walk opened there yields to its end,
// of kind 3 a ceiling.
pub fn drawer_length(n: usize, d: usize, kind: u8, limit: &[u8]) -> Result<Length, Refusal>
    ensures { length_outcome result ≡ decide (open_verdict n d kind limit.now) (drawer_length n d kind limit.now) }
{
    check_opening(n, d, kind, limit)?;
    if kind == 3 {
        return Ok(Length::AtMost(ceiling(n, d)));
    }
    Ok(Length::Exactly(ranking::inner::rank_of(limit, d, kind)))
}
