// A text before its first line: of a walk that is opened, or of a refusal.
ghost use Rattle.std.specs.Prelude.{◌≡◌, cond, ◌≤◌, ltb, length, take};
ghost use Rattle.drawer_lines.specs.Lines.{refusal_text};
ghost use Rattle.printing.specs.Text.{asked_text};
ghost use Rattle.printing.specs.Left.{left};

use crate::{Due, Printing};
use drawer_input::Request;
use refusal::Refusal;
use walk::Walk;

// A kind that no byte holds is no kind, as 0 is none.
fn kind_byte(kind: usize) -> u8
    ensures { result ≡ cond (ltb kind 256) kind 0 }
{
    u8::try_from(kind).unwrap_or(0)
}

// The text of a refusal. Nothing is walked.
pub fn start_refusal(r: Refusal) -> Printing
    ensures { left result ≡ refusal_text r }
{
    Printing {
        walk: Walk::refused(),
        number: 0,
        due: Due::Refused(r),
    }
}

// The text of a drawer, at or below a limit of some symbols at the front of a buffer.
pub fn start_walk(asked: Request, symbols: &[u8]) -> Printing
    requires { asked.size ≤ length symbols.now }
    ensures { left result ≡ asked_text asked.stations asked.holes asked.kind (take asked.size symbols.now) }
{
    let opened = Walk::open(
        asked.stations,
        asked.holes,
        kind_byte(asked.kind),
        &symbols[..asked.size],
    );
    match opened.answer {
        Ok(()) => Printing {
            walk: opened.walk,
            number: 0,
            due: Due::Header,
        },
        Err(r) => start_refusal(r),
    }
}
