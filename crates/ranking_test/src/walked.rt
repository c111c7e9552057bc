// The seats of the rings of walks from n ones.
use crate::asked;
use refusal::Refusal;
use test_rows::drawers::Tally;
use test_rows::{Drawer, cases};
use walk::{Answer, Walk};

// More trials than any walk here takes, and more steps.
pub const PLENTY: u64 = 16384;

// The rings' seats: the total first, then one less each time, at last 0, with none. Summed: the spent steps.
pub fn compare(drawer: Drawer, allowance: u64) -> Tally {
    let n = drawer.n;
    let total = asked::total(drawer);
    let ones = [1u8; refusal::MOST_STATIONS];
    let opened = Walk::open(n, drawer.d, drawer.kind, cases::part(&ones, 0, n));
    let mut walk = opened.walk;
    let mut tally = Tally::default();
    for _ in 0..PLENTY {
        let stepped = walk.step(allowance);
        walk = stepped.walk;
        let row = walk.row;
        let due = total.wrapping_sub(tally.compared as u64);
        match stepped.answer {
            Ok(Answer::Ring) => {
                let stood = Drawer {
                    n: walk.n,
                    d: walk.d,
                    kind: walk.kind,
                };
                let seat = asked::seat_of(stood, cases::part(&row, 0, walk.n));
                tally = tally.with(seat == Ok(due), 0);
            }
            Ok(Answer::None) => return tally.with(due == 0, 0),
            Err(Refusal::Spent) => tally.sum = tally.sum.wrapping_add(1),
            Err(_) => tally = tally.with(false, 0),
        }
    }
    tally
}
