// Look, then take: what a walk would give next is offered, and the walk moves when the offer is taken.
#![tactic(auto)]

ghost use Rattle.std.specs.Prelude.{◌≡◌};
ghost use Rattle.walk.specs.Moves.{rules};
ghost use Rattle.walk.specs.Step.{step_due, step_numbers};
ghost use Rattle.offers.specs.Offers.{look_numbers, look_of, refused_offer, take_due, take_of, unmoved};

use refusal::Refusal;
use walk::{Answer, Stepped, Walk};

// An offer: what a look gave, the allowance that it had, and the walk as it would be. A ring is that walk's row. Any
// record may be handed in as one.
#[derive(Clone, Copy, PartialEq, Eq)]
pub struct Offer {
    pub offered: Answer,
    pub allowance: u64,
    pub walk: Walk,
}

// What a look hands back: the walk as it was, a step's answer with its place and its trials, and the offer.
#[derive(Clone, Copy)]
pub struct Looked {
    pub walk: Walk,
    pub answer: Result<Answer, Refusal>,
    pub place: usize,
    pub trials: u64,
    pub offer: Offer,
}

impl Offer {
    // The offer of a refused look.
    pub fn refused() -> Offer
        ensures { result ≡ refused_offer }
    {
        Offer {
            offered: Answer::None,
            allowance: 0,
            walk: Walk::refused(),
        }
    }
}

// Looks at what a step with this allowance would give. The walk comes back as it was, also where that is spent.
pub fn look(walk: Walk, allowance: u64) -> Looked
    ensures answer { result ≡ look_of walk allowance }
    ensures numbers { look_numbers result ≡ step_due rules walk allowance }
{
    let stepped = walk.step(allowance);
    let offer = match stepped.answer {
        Ok(offered) => Offer {
            offered,
            allowance,
            walk: stepped.walk,
        },
        Err(_) => Offer::refused(),
    };
    Looked {
        walk,
        answer: stepped.answer,
        place: stepped.place,
        trials: stepped.trials,
        offer,
    }
}

// A take that is refused.
fn refusing(walk: Walk, r: Refusal) -> Stepped
    ensures { result ≡ unmoved walk r }
{
    Stepped {
        walk,
        answer: Err(r),
        place: 0,
        trials: 0,
    }
}

// Takes an offer, if a look at this walk with its allowance gives that same offer: the walk moves by that step.
pub fn take(walk: Walk, offer: Offer) -> Stepped
    ensures answer { result ≡ take_of walk offer }
    ensures numbers { step_numbers result ≡ take_due walk offer }
{
    let stepped = walk.step(offer.allowance);
    match stepped.answer {
        Ok(given) => {
            if offer.offered == given && walk_records::same_walk(offer.walk, stepped.walk) {
                return stepped;
            }
            refusing(walk, Refusal::NotOffered)
        }
        Err(r) => match r {
            // such a look is spent, and offers nothing; in a match of its own, which tells of the others that they are not Spent
            Refusal::Spent => refusing(walk, Refusal::NotOffered),
            _ => refusing(walk, r),
        },
    }
}
