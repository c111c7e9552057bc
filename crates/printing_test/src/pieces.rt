// Pieces of a text in lent buffers, compared byte by byte with the text that is due.
ghost use Rattle.std.specs.Prelude.{◌≤◌};

use drawer_lines::LONGEST_LINE;
use printing::{Filled, Printing};
use test_rows::FRESH;

// The bytes of a buffer, of which up to 4200 are lent.
const MOST_ROOM: usize = 4300;

// The lengths of the first and of the last buffer that a text is printed in.
#[derive(Clone, Copy)]
pub struct Rooms {
    pub first: usize,
    pub last: usize,
    ghost in_buffer: { last ≤ 4200 },
}

// What of the text that is due goes on behind a piece, if the buffer holds its next bytes and is as it was behind them.
fn behind<'a>(out: &[u8; MOST_ROOM], used: usize, due: &'a [u8]) -> Option<&'a [u8]> {
    let (piece, rest) = due.split_at_checked(used)?;
    if test_texts::holds(out, used, piece) {
        Some(rest)
    } else {
        None
    }
}

// Whether more is to come behind a piece, where `left` bytes of the text are behind it: it does not say that it ends
// the text, and goes on until less than a longest line's room is left of the buffer.
fn goes_on(filled: Filled, left: usize, room: usize) -> bool {
    !filled.done && left != 0 && LONGEST_LINE <= room && room - LONGEST_LINE < filled.used
}

// Whether a piece behind which no more is to come is as it must be: the last, which alone says that it ends the text,
// or that of a buffer with too little room for a longest line, which gets nothing.
fn ends(filled: Filled, left: usize, room: usize) -> bool {
    if filled.done {
        return left == 0;
    }
    left != 0 && room < LONGEST_LINE && filled.used == 0
}

// Whether the pieces in buffers of some length are the text that is due: each holds what follows the last.
fn agree(start: Printing, due: &[u8], room: usize) -> bool
    requires { room ≤ 4200 }
{
    let mut state = start;
    let mut left = due;
    for _ in 0..8192 {
        let mut out = [FRESH; MOST_ROOM];
        let filled = state.fill(&mut out[..room]);
        let Some(rest) = behind(&out, filled.used, left) else {
            return false;
        };
        if !goes_on(filled, rest.len(), room) {
            return ends(filled, rest.len(), room);
        }
        left = rest;
        state = filled.state;
    }
    false
}

// ---- what was compared

// How many texts were compared and agreed, their bytes, and a sum of checks of them. No count goes above a billion.
#[derive(Clone, Copy, Default)]
pub struct Tally {
    pub compared: usize,
    pub agreed: usize,
    pub bytes: usize,
    pub checks: usize,
}

impl Tally {
    pub fn plus(self, other: Tally) -> Tally {
        Tally {
            compared: test_walks::plus(self.compared, other.compared),
            agreed: test_walks::plus(self.agreed, other.agreed),
            bytes: test_walks::plus(self.bytes, other.bytes),
            checks: test_walks::plus(self.checks, other.checks),
        }
    }

    pub fn print(self, name: &[u8]) {
        io::write_all(1, name);
        test_rows::print_filled(
            b" compared # agreed # bytes # checks #\n",
            &[self.compared, self.agreed, self.bytes, self.checks],
        );
    }
}

// A text in buffers of some lengths.
pub fn compare(start: Printing, due: &[u8], rooms: Rooms) -> Tally {
    let checks = test_walks::remainder(due, 256);
    let mut tally = Tally::default();
    for room in rooms.first..=rooms.last {
        let one = Tally {
            compared: 1,
            agreed: usize::from(agree(start, due, room)),
            bytes: due.len(),
            checks,
        };
        tally = tally.plus(one);
    }
    tally
}
