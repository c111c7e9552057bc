// For the test programs: what steps, looks and takes are due to say and leave, and what differs.
#![tactic(auto)]

ghost use Rattle.std.specs.Prelude.{◌<◌};

use offers::{Looked, Offer};
use refusal::Refusal;
use walk::{Answer, Stepped, Walk};

// ---- the same

// Field by field, and rows byte by byte: plain search, which the library's `same_walk` is compared with too.
pub fn same_walk(walk: Walk, other: Walk) -> bool {
    walk.row.iter().eq(&other.row)
        && walk.kept.iter().eq(&other.kept)
        && walk.n == other.n
        && walk.d == other.d
        && walk.kind == other.kind
        && walk_records::standing_number(walk.at) == walk_records::standing_number(other.at)
        && walk_records::standing_place(walk.at) == walk_records::standing_place(other.at)
}

// A ring 0, none 1: by a match, as `==` is what is compared with.
fn offered_number(offered: Answer) -> u8 {
    match offered {
        Answer::Ring => 0,
        Answer::None => 1,
    }
}

pub fn same_offer(offer: Offer, other: Offer) -> bool {
    same_walk(offer.walk, other.walk)
        && offered_number(offer.offered) == offered_number(other.offered)
        && offer.allowance == other.allowance
}

// ---- what is due

// The offer of a look, of what a step with the allowance says and hands back.
pub fn offer_due(stepped: Stepped, allowance: u64) -> Offer {
    match stepped.answer {
        Ok(offered) => Offer {
            offered,
            allowance,
            walk: stepped.walk,
        },
        Err(_) => Offer {
            offered: Answer::None,
            allowance: 0,
            walk: Walk::refused(),
        },
    }
}

// A refusal that leaves the walk.
fn unmoved(before: Walk, r: Refusal) -> Stepped {
    Stepped {
        walk: before,
        answer: Err(r),
        place: 0,
        trials: 0,
    }
}

// What a take says and leaves, of a step with the offer's allowance: that step, if it gives what was offered.
pub fn take_due(before: Walk, stepped: Stepped, is_offered: bool) -> Stepped {
    match stepped.answer {
        Ok(_) if is_offered => stepped,
        Ok(_) => unmoved(before, Refusal::NotOffered),
        Err(Refusal::Spent) => unmoved(before, Refusal::NotOffered),
        Err(r) => unmoved(before, r),
    }
}

// ---- what differs

pub fn differing(told: Stepped, due: Stepped) -> usize {
    usize::from(told.answer != due.answer)
        + usize::from(told.place != due.place)
        + usize::from(told.trials != due.trials)
        + usize::from(!same_walk(told.walk, due.walk))
}

// What a look says and hands back, as a step does.
pub fn told(looked: Looked) -> Stepped {
    Stepped {
        walk: looked.walk,
        answer: looked.answer,
        place: looked.place,
        trials: looked.trials,
    }
}

// How much of a look is not what a step says, the walk as it was, and the offer of what the step gives.
pub fn look_differing(before: Walk, allowance: u64, looked: Looked, stepped: Stepped) -> usize {
    let due = offer_due(stepped, allowance);
    let left = Stepped {
        walk: before,
        ..stepped
    };
    test_walks::plus(
        differing(told(looked), left),
        usize::from(!same_offer(looked.offer, due)),
    )
}

// ---- what was called, added up

// A call: its trials, its place, the rows handed back and offered, as numbers, and what differs.
#[derive(Clone, Copy, Default)]
pub struct Call {
    pub trials: u64,
    pub place: usize,
    pub rows: usize,
    pub differing: usize,
}

// Calls by what they say, in so many sorts, and the sums of what they tell. No number goes above a billion.
#[derive(Clone, Copy)]
pub struct Counts<const N: usize> {
    pub answers: [usize; N],
    pub trials: usize,
    pub places: usize,
    pub rows: usize,
    pub differing: usize,
}

impl Call {
    // What a step, a look or a take tells.
    pub fn told(told: Stepped, differing: usize) -> Call {
        Call {
            trials: told.trials,
            place: told.place,
            rows: test_walks::rows_of(told.walk),
            differing,
        }
    }

    // The same of a look, whose offer has rows too.
    pub fn looked(looked: Looked, differing: usize) -> Call {
        let call = Call::told(told(looked), differing);
        let offered = test_walks::rows_of(looked.offer.walk);
        Call {
            rows: test_walks::plus(call.rows, offered),
            ..call
        }
    }
}

impl<const N: usize> Counts<N> {
    pub fn new() -> Counts<N> {
        Counts {
            answers: [0; N],
            trials: 0,
            places: 0,
            rows: 0,
            differing: 0,
        }
    }

    // One call more, of a sort.
    pub fn with(self, sort: usize, call: Call) -> Counts<N>
        requires { sort < N }
    {
        let mut answers = self.answers;
        answers[sort] = test_walks::plus(answers[sort], 1);
        Counts {
            answers,
            trials: test_walks::plus(self.trials, call.trials as usize),
            places: test_walks::plus(self.places, call.place),
            rows: test_walks::plus(self.rows, call.rows),
            differing: test_walks::plus(self.differing, call.differing),
        }
    }

    // The end of a line: how many calls say each, and the sums.
    pub fn print(self, answers: &[u8])
        requires { N < 100 }
    {
        test_rows::print_filled(answers, &self.answers);
        test_rows::print_filled(
            b" trials # places # rows # differing #\n",
            &[self.trials, self.places, self.rows, self.differing],
        );
    }
}
