// The drawer program: reads a drawer, a kind and a limit from standard input, and prints the rings at or below the limit. What it prints is
// the text that `printing` makes.
#![tactic(auto)]

ghost use Rattle.std.specs.Prelude.{List, ◌≡◌, ℕ, ◌<◌, ◌≤◌, length};
ghost use Rattle.drawer_input.specs.Input.{most_bytes};
ghost use Rattle.printing.specs.Left.{left};
ghost use Rattle.printing.specs.Text.{printed};
ghost use Rattle.drawer_program.specs.HandedOn.{HandedOn};
ghost use Rattle.drawer_program.specs.Read.{IsRead};

use drawer_input::MOST_BYTES;
use printing::Printing;

// Where a printing has come to, and whether every piece of it was taken: a field, as the claim TextHandedOn names it.
#[derive(Clone, Copy, PartialEq, Eq)]
pub struct Handed {
    pub state: Printing,
    pub taken: bool,
}

// The text for any input of which this was read: a buffer that is longer than an input may be holds enough of each.
fn start_read(room: &[u8], got: usize) -> Printing
    requires { (most_bytes < length room.now) × (got ≤ length room.now) }
    ensures { (input : List ℕ) → IsRead input room.now got → left result ≡ printed input }
{
    Printing::start(&room[..got])
}

// Hands a text on to standard output, piece by piece, to its end or to the first piece that is not taken.
pub fn hand_on(start: Printing) -> Handed
    ensures { HandedOn start result }
{
    let mut state = start;
    let mut out = io::buffer();
    loop {
        let filled = state.fill(&mut out);
        state = filled.state;
        if !io::write_all(1, &out[..filled.used]) {
            return Handed {
                state,
                taken: false,
            };
        }
        if filled.done {
            return Handed { state, taken: true };
        }
    }
}

// Reads standard input, and hands on its text.
pub fn run() -> Handed {
    let mut text = [0u8; MOST_BYTES + 1];
    let got = io::read_full(0, &mut text);
    hand_on(start_read(&text, got))
}
