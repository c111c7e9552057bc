// Single looks and takes, printed.
use offers::Offer;
use test_rows::cases;
use walk::{Standing, Stepped, Walk};

// The walk that stands, and the offer held.
#[derive(Clone, Copy)]
struct Held {
    walk: Walk,
    offer: Offer,
}

fn print_told(before: Walk, told: Stepped) {
    test_walks::print_said(told.answer);
    test_rows::print_filled(b" place # trials #", &[told.place, told.trials as usize]);
    test_walks::print_row(told.walk);
    io::write_all(1, b" unchanged ");
    test_rows::print_truth(test_calls::same_walk(before, told.walk));
}

fn print_offer(offer: Offer) {
    let walk = offer.walk;
    io::write_all(1, b" offers");
    test_walks::print_said(Ok(offer.offered));
    test_rows::print_filled(
        b" allowance # (#,#) kind # standing #",
        &[
            offer.allowance as usize,
            walk.n,
            walk.d,
            usize::from(walk.kind),
            usize::from(walk_records::standing_number(walk.at)),
        ],
    );
    test_walks::print_row(walk);
}

// Stations, holes, kind and limit.
fn opened(line: &[u8]) -> Walk {
    let digits = cases::word(line, 4);
    let row = cases::symbols(digits);
    test_walks::open(cases::drawer(line, 1), cases::part(&row, 0, digits.len())).walk
}

fn show_step(held: Held, allowance: u64) -> Held {
    let told = held.walk.step(allowance);
    print_told(held.walk, told);
    Held {
        walk: told.walk,
        ..held
    }
}

fn show_look(held: Held, allowance: u64) -> Held {
    let looked = offers::look(held.walk, allowance);
    print_told(held.walk, test_calls::told(looked));
    print_offer(looked.offer);
    Held {
        walk: looked.walk,
        offer: looked.offer,
    }
}

fn show_take(held: Held) -> Held {
    let told = offers::take(held.walk, held.offer);
    print_told(held.walk, told);
    Held {
        walk: told.walk,
        ..held
    }
}

fn unfit(walk: Walk) -> Walk {
    Walk {
        at: Standing::Down(0),
        ..walk
    }
}

// A call by the first letter of its name; `refused` holds the offer of a refused look, `unfit` spoils the walk.
fn show_call(held: Held, line: &[u8]) -> Held {
    let allowance = cases::number(line, 1) as u64;
    match cases::first_byte(line) {
        b'o' => Held {
            walk: opened(line),
            ..held
        },
        b's' => show_step(held, allowance),
        b'l' => show_look(held, allowance),
        b't' => show_take(held),
        b'r' => Held {
            offer: Offer::refused(),
            ..held
        },
        _ => Held {
            walk: unfit(held.walk),
            ..held
        },
    }
}

fn show_calls(text: &[u8]) {
    let mut held = Held {
        walk: Walk::refused(),
        offer: Offer::refused(),
    };
    cases::each(text, b'\n', |call| {
        io::write_all(1, call);
        held = show_call(held, call);
        io::write_all(1, b"\n");
    });
}

pub fn show_single() {
    // nothing opened; looks with too few, just enough and plenty trials, and their takes, the second refused; offers of
    // a walk that was spent in between, given a ring in between, opened afresh, of another limit, drawer or kind; none;
    // ended; unfit; the offer of a refused look; 64 stations
    show_calls(
        b"take\n\
          look 0\n\
          take\n\
          open 8 3 1 11111111\n\
          take\n\
          look 0\n\
          take\n\
          look 14\n\
          take\n\
          look 15\n\
          look 15\n\
          take\n\
          take\n\
          look most\n\
          look 1\n\
          look 6\n\
          take\n\
          step 2\n\
          look 0\n\
          look 1\n\
          look 999\n\
          take\n\
          open 8 3 1 11111111\n\
          look 15\n\
          step 0\n\
          step 14\n\
          take\n\
          open 8 3 1 11111111\n\
          look 999\n\
          step 4\n\
          take\n\
          step 999\n\
          take\n\
          open 8 3 1 11111111\n\
          look 999\n\
          step 999\n\
          take\n\
          open 8 3 1 11111111\n\
          take\n\
          open 8 3 1 11111111\n\
          step 12\n\
          look 3\n\
          open 8 3 1 11111111\n\
          take\n\
          step 11\n\
          take\n\
          step 1\n\
          take\n\
          open 8 3 1 00011000\n\
          look 4\n\
          open 8 3 1 00010101\n\
          take\n\
          open 8 3 1 00010111\n\
          take\n\
          open 8 3 2 00011000\n\
          take\n\
          open 8 3 3 00011000\n\
          take\n\
          open 8 4 1 00011000\n\
          take\n\
          open 9 3 1 000101010\n\
          take\n\
          open 8 3 1 00000110\n\
          look 1\n\
          look 2\n\
          take\n\
          take\n\
          look 2\n\
          take\n\
          step 2\n\
          open 8 3 1 00000110\n\
          look 2\n\
          step 2\n\
          take\n\
          open 8 3 1 00000111\n\
          look 0\n\
          take\n\
          look 2\n\
          open 8 3 1 00000101\n\
          take\n\
          open 4 1 2 0001\n\
          take\n\
          look 999\n\
          unfit\n\
          take\n\
          look 999\n\
          take\n\
          open 4 1 2 0001\n\
          take\n\
          look 999\n\
          take\n\
          unfit\n\
          take\n\
          open 9 10 1 1\n\
          look 999\n\
          take\n\
          open 8 3 1 00010101\n\
          refused\n\
          take\n\
          open 2 0 1 00\n\
          step 0\n\
          take\n\
          look 0\n\
          take\n\
          open 1 0 2 0\n\
          step 0\n\
          refused\n\
          take\n\
          open 1 0 1 0\n\
          take\n\
          step 0\n\
          take\n\
          take\n\
          open 1 0 1 1\n\
          take\n\
          look 1\n\
          take\n\
          look 1\n\
          step 0\n\
          take\n\
          open 64 64 3 1111111111111111111111111111111111111111111111111111111111111111\n\
          look 0\n\
          take\n\
          look most\n\
          take\n\
          open 64 32 2 1111111111111111111111111111111111111111111111111111111111111111\n\
          look 95\n\
          look 999\n\
          step 50\n\
          take\n",
    );
}
