// Calls counted by what they say.
ghost use Rattle.std.specs.Prelude.{◌<◌};

use refusal::Refusal;
use test_calls::Call;
use walk::Answer;

// What a call does that is not refused.
#[derive(Clone, Copy, PartialEq, Eq)]
pub enum Done {
    Opened,
    Stepped(Answer),
    Looked,
    Taken,
    Put,
    Fetched,
}

// Calls by what they say: openings, steps that give a ring or none, looks that give either, takes accepted, puts and
// fetches done, and refusals.
pub const SORTS: usize = 13;

pub type Counts = test_calls::Counts<SORTS>;

// Where a call is counted by what it says.
fn slot_of(said: Result<Done, Refusal>) -> usize
    ensures { result < 13 }
{
    match said {
        Ok(Done::Opened) => 0,
        Ok(Done::Stepped(Answer::Ring)) => 1,
        Ok(Done::Stepped(Answer::None)) => 2,
        Ok(Done::Looked) => 3,
        Ok(Done::Taken) => 4,
        Ok(Done::Put) => 5,
        Ok(Done::Fetched) => 6,
        Err(Refusal::Name) => 7,
        Err(Refusal::Ended) => 8,
        Err(Refusal::Spent) => 9,
        Err(Refusal::Unfit) => 10,
        Err(Refusal::NothingPut) => 11,
        Err(_) => 12,
    }
}

// One call more, by what it says.
pub fn counted(counts: Counts, said: Result<Done, Refusal>, call: Call) -> Counts {
    counts.with(slot_of(said), call)
}

pub fn print(counts: Counts, from: usize) {
    let calls = counts
        .answers
        .iter()
        .fold(0, |sum, count| test_walks::plus(sum, *count));
    test_rows::print_filled(b", a hundred from #: calls #", &[from, calls]);
    counts.print(
        b" opened # ring # none # looked # taken # put # fetched # 12 # 20 # 21 # 22 # 23 # 24 #",
    );
}
