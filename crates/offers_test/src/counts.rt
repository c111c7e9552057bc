// Looks and takes, counted and added up.
ghost use Rattle.std.specs.Prelude.{◌<◌};

use offers::Offer;
use refusal::Refusal;
use test_calls::Call;
use walk::{Answer, Walk};

// Calls by what they say: a ring, none, 20, 21, 22 and 24.
pub const SORTS: usize = 6;

pub type Counts = test_calls::Counts<SORTS>;

// Where a call is counted by what it says.
fn slot_of(said: Result<Answer, Refusal>) -> usize
    ensures { result < 6 }
{
    match said {
        Ok(Answer::Ring) => 0,
        Ok(Answer::None) => 1,
        Err(Refusal::Ended) => 2,
        Err(Refusal::Spent) => 3,
        Err(Refusal::Unfit) => 4,
        Err(_) => 5,
    }
}

fn counted(counts: Counts, said: Result<Answer, Refusal>, call: Call) -> Counts {
    counts.with(slot_of(said), call)
}

// A take of an offer on a walk.
pub fn takes(counts: Counts, walk: Walk, offer: Offer) -> Counts {
    let told = offers::take(walk, offer);
    let stepped = walk.step(offer.allowance);
    let looked = test_calls::offer_due(stepped, offer.allowance);
    let due = test_calls::take_due(walk, stepped, test_calls::same_offer(looked, offer));
    let differing = test_calls::differing(told, due);
    counted(counts, told.answer, Call::told(told, differing))
}

// Whether the library tells two records apart where they differ in some field or byte.
pub fn tells_apart(counts: Counts, walk: Walk, other: Walk) -> Counts {
    let same = test_calls::same_walk(walk, other);
    let differing = usize::from(walk_records::same_walk(walk, other) != same);
    Counts {
        differing: test_walks::plus(counts.differing, differing),
        ..counts
    }
}

// A look at a walk.
pub fn looks(counts: Counts, walk: Walk, allowance: u64) -> Counts {
    let looked = offers::look(walk, allowance);
    let stepped = walk.step(allowance);
    let differing = test_calls::look_differing(walk, allowance, looked, stepped);
    counted(counts, looked.answer, Call::looked(looked, differing))
}

pub fn print(counts: Counts, from: usize, to: usize) {
    test_rows::print_filled(b" # up to #:", &[from, to]);
    counts.print(b" ring # none # 20 # 21 # 22 # 24 #");
}
