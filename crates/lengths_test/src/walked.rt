// The rings of walks to their end, against the length.
use crate::asked;
use test_rows::drawers::Tally;
use test_rows::{Drawer, cases};
use walk::{Answer, Walk};

// More trials than any walk here takes.
pub const PLENTY: u64 = 16384;

// More steps: each but the last gives a ring or makes a trial.
const STEPS: usize = 32768;

// The rings named before none, if it comes.
fn rings(drawer: Drawer, limit: &[u8], allowance: u64) -> Option<usize> {
    let opened = Walk::open(drawer.n, drawer.d, drawer.kind, limit);
    let mut walk = opened.walk;
    let mut rings: usize = 0;
    for _ in 0..STEPS {
        let stepped = walk.step(allowance);
        walk = stepped.walk;
        match stepped.answer {
            Ok(Answer::Ring) => rings = rings.wrapping_add(1),
            Ok(Answer::None) => return Some(rings),
            Err(_) => {}
        }
    }
    None
}

// Summed: the rings.
pub fn compare(drawer: Drawer, limit: usize, allowance: u64) -> Tally {
    let symbols = test_rows::row_of_number(drawer.n, limit);
    let row = cases::part(&symbols, 0, drawer.n);
    let Some(rings) = rings(drawer, row, allowance) else {
        return Tally::default().with(false, 0);
    };
    let told = asked::length(drawer, row);
    Tally::default().with(asked::covers(told, drawer.kind, rings), rings)
}
