// The drawer program's text, as it is handed out in buffers of many lengths, against plain printing.
#![tactic(auto)]

mod drawers;
mod pieces;
mod plain;
mod sets;
mod states;

use printing::Printing;
use sets::Set;
use test_texts::Text;

// The text of an input, printed in buffers of 128 bytes.
fn print_pieces(input: &[u8]) {
    let mut state = Printing::start(input);
    for _ in 0..1000 {
        let mut out = [0u8; 128];
        let filled = state.fill(&mut out);
        test_texts::print_front(filled.used, &out);
        if filled.done {
            return;
        }
        state = filled.state;
    }
}

// The text of a drawer at ones.
fn show(n: usize, d: usize, kind: usize) {
    let mut input = Text::new();
    drawers::drawer(n, d, kind, usize::MAX).add_input(&mut input);
    print_pieces(input.as_slice());
}

fn show_faults() {
    sets::show(b"beginnings", Set::Cut, 40);
    sets::show(b"other names", Set::Name, 26);
    sets::show(b"bytes behind", Set::Behind, 240);
    sets::show(b"lengths of the limit", Set::Limit, 300);
    sets::show(b"openings", Set::Openings, 9600);
    sets::show(b"other states", Set::States, 4);
}

fn show_drawers() {
    for n in 1..=14 {
        test_rows::print_named(b"stations ", n);
        sets::show(b"", Set::Drawers(n), drawers::count(n));
    }
}

fn show_rooms() {
    io::write_all(1, b"buffers of 0 to 4200 bytes\n");
    sets::show(b"(6,3) kind 4", Set::One(6, 3, 4), 1);
    sets::show(b"(14,7) kind 1", Set::One(14, 7, 1), 1);
    sets::show(b"(14,7) kind 2", Set::One(14, 7, 2), 1);
}

fn main() {
    show(6, 3, 1);
    show(6, 3, 2);
    show(6, 3, 3);
    show(64, 1, 2);
    show(64, 64, 1);
    show_faults();
    show_drawers();
    show_rooms();
}
