// Sets of texts, each with what is due for its k-th, and the buffers that it is printed in.
ghost use Rattle.std.specs.Prelude.{◌≤◌};

use crate::drawers::Case;
use crate::pieces::{Rooms, Tally};
use crate::{drawers, plain};
use printing::Printing;
use test_rows::{Drawer, cases};
use test_texts::Text;

// Document 01's example: its first k bytes; with another byte in its names; with k bytes behind it; with a limit of k
// ones. Openings of every refusal. All drawers of n stations. One drawer (n, d) of a kind. States that no start hands
// out.
#[derive(Clone, Copy)]
pub enum Set {
    Cut,
    Name,
    Behind,
    Limit,
    Openings,
    Drawers(usize),
    One(usize, usize, usize),
    States,
}

// The drawer of a text; of the faults, the example's.
fn case(set: Set, k: usize) -> Case {
    match set {
        Set::Openings => drawers::opening(k),
        Set::Drawers(n) => drawers::numbered(n, k),
        Set::One(n, d, kind) => drawers::drawer(n, d, kind, 16383),
        _ => drawers::drawer(6, 3, 1, 63),
    }
}

// A form with k bytes that are all the same, up to 300.
fn add_many(text: &mut Text, form: &[u8], byte: u8, k: usize) {
    text.fill(form, &[], cases::part(&[byte; 300], 0, k));
}

// The example with another byte at a place of its names.
fn add_renamed(text: &mut Text, place: usize) {
    let at = place % 26;
    drawers::drawer(6, 3, 1, 63).add_input(text);
    text.bytes[at] = text.bytes[at] % 255 + 1;
}

fn add_input(text: &mut Text, set: Set, k: usize) {
    match set {
        Set::Name => add_renamed(text, k),
        Set::Behind => add_many(
            text,
            b"stations holes kind limit\n6 3 1 111111\n@",
            b'\n',
            k,
        ),
        Set::Limit => add_many(text, b"stations holes kind limit\n6 3 1 @\n", b'1', k),
        _ => case(set, k).add_input(text),
    }
}

fn start(set: Set, k: usize) -> Printing {
    if let Set::States = set {
        return crate::states::state(k);
    }
    let mut input = Text::new();
    add_input(&mut input, set, k);
    let all = input.as_slice();
    match set {
        Set::Cut => Printing::start(cases::part(all, 0, k)),
        _ => Printing::start(all),
    }
}

// The refusal's number and place. 217 bytes behind the example and a limit of 223 make 256 bytes.
fn refused(set: Set, k: usize) -> Option<(usize, usize)> {
    match set {
        Set::Cut => match k {
            0..=25 => Some((10, 1)),
            26..=38 => Some((10, 2)),
            _ => None,
        },
        Set::Name => Some((10, 1)),
        Set::Behind => match k {
            0 => None,
            1..=217 => Some((10, 3)),
            _ => Some((10, 1)),
        },
        Set::Limit => match k {
            0 => Some((10, 2)),
            6 => None,
            1..=223 => Some((4, 0)),
            _ => Some((10, 1)),
        },
        Set::States => if k < 3 { Some((22, 0)) } else { None },
        _ => case(set, k).refused(),
    }
}

// The text that is due.
fn add_due(text: &mut Text, set: Set, k: usize) {
    if let Some((number, place)) = refused(set, k) {
        return plain::add_refusal(text, number, place);
    }
    if let Set::States = set {
        return text.append(b"18446744073709551615 0 1 0\nend - - 0\n");
    }
    let case = case(set, k);
    let drawer = Drawer {
        n: case.n,
        d: case.d,
        kind: (case.kind % 256) as u8,
    };
    plain::add_drawer(text, drawer, case.limit);
}

fn rooms_of(set: Set, k: usize) -> Rooms {
    let any = 128 + k % 300;
    match set {
        Set::One(_, _, _) => Rooms {
            first: 0,
            last: 4200,
        },
        Set::States => Rooms {
            first: 0,
            last: 300,
        },
        Set::Openings => Rooms {
            first: any,
            last: any,
        },
        Set::Drawers(_) => Rooms {
            first: any,
            last: any,
        },
        _ => Rooms {
            first: 128,
            last: 132,
        },
    }
}

fn compare_one(set: Set, k: usize) -> Tally {
    let mut due = Text::new();
    add_due(&mut due, set, k);
    crate::pieces::compare(start(set, k), due.as_slice(), rooms_of(set, k))
}

// The texts numbered below a count.
pub fn show(name: &[u8], set: Set, count: usize) {
    let mut tally = Tally::default();
    for k in 0..count {
        tally = tally.plus(compare_one(set, k));
    }
    tally.print(name);
}
