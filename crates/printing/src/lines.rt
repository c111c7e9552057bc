// The next line of a text, to the front of a buffer that has room for it.
ghost use Rattle.std.specs.Prelude.{◌≡◌, ◌≤◌, ltb, length};
ghost use Rattle.drawer_lines.specs.Lines.{end_line, header, longest_line, refusal_text};
ghost use Rattle.printing.specs.Left.{highest64};
ghost use Rattle.printing.specs.InnerNextLine.{GivenRing, Puts, is_done, last_line, line_then, next_of, printing, ring_next, walk_next};

use crate::{Due, Filled, Printing};
use refusal::Refusal;
use walk::Answer;

// All that can be allowed: more than the trials of any ring.
const ALLOWANCE: u64 = u64::MAX;

// More rings than are in any drawer.
const MOST_RINGS: u64 = u64::MAX;

// Whether nothing is due.
pub fn is_done(due: Due) -> bool
    ensures { result ≡ is_done due }
{
    matches!(due, Due::Done)
}

// What is handed back with a line of so many bytes.
fn filled(state: Printing, due: Due, used: usize) -> Filled
    ensures { result ≡ record { state = record state { due = due }; used = used; done = is_done due } }
{
    Filled {
        state: Printing { due, ..state },
        used,
        done: is_done(due),
    }
}

// A refusal's text, and nothing behind it.
fn put_refusal(r: Refusal, state: Printing, out: &mut [u8]) -> Filled
    requires { longest_line ≤ length out.old }
    ensures { Puts (last_line (refusal_text r) state.number state.walk) out.old out.new result }
{
    filled(state, Due::Done, drawer_lines::write_refusal(r, out))
}

// The names.
fn put_header(state: Printing, out: &mut [u8]) -> Filled
    requires { longest_line ≤ length out.old }
    ensures { Puts (line_then header (printing state.walk state.number Due.Rings)) out.old out.new result }
{
    filled(state, Due::Rings, drawer_lines::write_header(out))
}

// The line of the ring that the walk gave.
fn put_ring(state: Printing, trials: u64, out: &mut [u8]) -> Filled
    requires { GivenRing state.walk × (longest_line ≤ length out.old) }
    ensures { Puts (ring_next (ltb state.number highest64) state.number state.walk trials) out.old out.new result }
{
    if MOST_RINGS <= state.number {
        return put_refusal(Refusal::Unfit, state, out);
    }
    let row = &state.walk.row[..state.walk.n];
    let period = words::inner::necklace_period(row);
    let number = state.number + 1;
    // by `as`: no From leads from a usize to a u64
    let used = drawer_lines::write_ring(number, row, period as u64, trials, out);
    filled(Printing { number, ..state }, Due::Rings, used)
}

// The last line, of a step that found none.
fn put_end(state: Printing, trials: u64, out: &mut [u8]) -> Filled
    requires { longest_line ≤ length out.old }
    ensures { Puts (last_line (end_line trials) state.number state.walk) out.old out.new result }
{
    filled(state, Due::Done, drawer_lines::write_end(trials, out))
}

// The line that the walk's next step gives.
fn put_step(state: Printing, out: &mut [u8]) -> Filled
    requires { longest_line ≤ length out.old }
    ensures { Puts (walk_next state.walk state.number) out.old out.new result }
{
    let stepped = state.walk.step(ALLOWANCE);
    let after = Printing {
        walk: stepped.walk,
        ..state
    };
    match stepped.answer {
        Ok(Answer::Ring) => put_ring(after, stepped.trials, out),
        Ok(Answer::None) => put_end(after, stepped.trials, out),
        Err(_) => put_refusal(Refusal::Unfit, after, out),
    }
}

// The line that is due; nothing where the text is done.
pub fn put_line(state: Printing, out: &mut [u8]) -> Filled
    requires { longest_line ≤ length out.old }
    ensures { Puts (next_of state) out.old out.new result }
{
    match state.due {
        Due::Refused(r) => put_refusal(r, state, out),
        Due::Header => put_header(state, out),
        Due::Rings => put_step(state, out),
        Due::Done => filled(state, Due::Done, 0),
    }
}
