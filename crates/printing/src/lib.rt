// The drawer program's printed text, made piece by piece into lent buffers.
#![tactic(auto)]

mod lines;
mod opening;

ghost use Rattle.std.specs.Prelude.{◌≡◌};
ghost use Rattle.printing.specs.Text.{printed};
ghost use Rattle.printing.specs.Left.{left};
ghost use Rattle.printing.specs.Pieces.{Fills};

use drawer_input::MOST_BYTES;
use drawer_lines::LONGEST_LINE;
use refusal::Refusal;
use walk::Walk;

// What is due next: a refusal, the names, a ring or the end, or nothing.
#[derive(Clone, Copy, PartialEq, Eq)]
pub enum Due {
    Refused(Refusal),
    Header,
    Rings,
    Done,
}

// A text that is being printed: the walk, how many rings were printed, and what is due.
#[derive(Clone, Copy, PartialEq, Eq)]
pub struct Printing {
    pub walk: Walk,
    pub number: u64,
    pub due: Due,
}

// What filling a buffer hands back: the printing behind it, how many bytes were written, and whether that was all: a field, as the claim
// DoneExactly names it.
#[derive(Clone, Copy, PartialEq, Eq)]
pub struct Filled {
    pub state: Printing,
    pub used: usize,
    pub done: bool,
}

impl Printing {
    // The program's text for an input.
    pub fn start(text: &[u8]) -> Printing
        ensures { left result ≡ printed text.now }
    {
        let mut limit = [0u8; MOST_BYTES];
        match drawer_input::read_drawer(text, &mut limit) {
            Ok(request) => opening::start_walk(request, &limit),
            Err(r) => opening::start_refusal(r),
        }
    }

    // Whole lines to the front of a buffer, as long as there is room for any line.
    pub fn fill(self, out: &mut [u8]) -> Filled
        ensures { Fills self out.old out.new result }
    {
        let mut state = self;
        let mut used: usize = 0;
        while LONGEST_LINE <= out.len() - used {
            let put = lines::put_line(state, &mut out[used..]);
            state = put.state;
            used += put.used;
            if put.done {
                return Filled {
                    state,
                    used,
                    done: true,
                };
            }
        }
        Filled {
            state,
            used,
            done: lines::is_done(state.due),
        }
    }
}
