// Single puts and fetches, printed.
use crate::compared;
use binder::Binder;
use refusal::Refusal;
use test_rows::{Drawer, cases};
use walk::{Standing, Walk};

// The walk of a drawer opened at ones, after two steps.
fn walked(n: usize, d: usize, kind: u8, first: u64, second: u64) -> Walk {
    let row = test_rows::row_of_number(n, usize::MAX);
    let opened = test_walks::open(Drawer { n, d, kind }, cases::part(&row, 0, n));
    opened.walk.step(first).walk.step(second).walk
}

// Two rings on, spent in the middle, ended, or unfit.
fn walk_of(letter: u8) -> Walk {
    match letter {
        b'a' => walked(8, 3, 1, 1000, 1000),
        b'b' => walked(6, 3, 2, 3, 0),
        b'c' => walked(4, 1, 2, 1000, 1000),
        _ => Walk {
            at: Standing::Down(0),
            ..Walk::refused()
        },
    }
}

fn print_answer(answer: Result<(), Refusal>) {
    io::write_all(1, b": ");
    match answer {
        Ok(_) => {
            io::write_all(1, b"done");
        }
        Err(r) => test_rows::print_refusal(r),
    }
}

// A walk, what a step of it says, and the row after it.
fn print_walk(w: Walk) {
    let told = w.step(1000);
    test_rows::print_filled(
        b" (#,#) kind # standing # place #",
        &[
            w.n,
            w.d,
            usize::from(w.kind),
            usize::from(walk_records::standing_number(w.at)),
            walk_records::standing_place(w.at),
        ],
    );
    test_walks::print_row(w);
    io::write_all(1, b" step");
    test_walks::print_said(told.answer);
    test_walks::print_row(told.walk);
}

fn show_fetch(held: Binder, name: usize) {
    let fetched = held.fetch(name);
    print_answer(fetched.answer);
    print_walk(fetched.walk);
}

fn show_put(held: Binder, name: usize, walk: Walk) -> Binder {
    let filed = held.put(name, walk);
    print_answer(filed.answer);
    test_rows::print_named(b" changed ", compared::misfiled(held, filed.binder, None));
    filed.binder
}

// A new binder, a fetch, or a put of the walk with the letter.
fn show_call(held: Binder, letter: u8, name: usize) -> Binder {
    if letter == b'n' {
        return Binder::fresh();
    }
    if letter == b'f' {
        show_fetch(held, name);
        return held;
    }
    show_put(held, name, walk_of(letter))
}

// Calls of a letter and a name, each with a comma behind it.
pub fn show_calls(text: &[u8]) {
    let mut held = Binder::fresh();
    cases::each(text, b',', |call| {
        io::write_all(1, call);
        held = show_call(held, cases::first_byte(call), cases::number(call, 1));
        io::write_all(1, b"\n");
    });
}
