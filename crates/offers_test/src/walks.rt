// Walks on the way and records at random: looked at, and their offers taken there and elsewhere.
ghost use Rattle.std.specs.Prelude.{◌<◌, ◌≤◌};

use crate::counts;
use crate::counts::Counts;
use offers::Offer;
use test_rows::{Drawer, cases};
use test_walks::random;
use walk::Walk;

// A drawer of 1 to 9 stations, more often 9, at any limit.
fn opened(own: usize) -> Walk {
    let n = 9 - random::drawn(own, 1, 1 + random::drawn(own, 5, 9));
    let drawer = Drawer {
        n,
        d: random::drawn(own, 2, n + 1),
        kind: (1 + random::drawn(own, 3, 3)) as u8,
    };
    let row = test_rows::row_of_number(n, random::drawn(own, 4, 512));
    test_walks::open(drawer, cases::part(&row, 0, n)).walk
}

// A drawer after two steps.
fn walked(index: usize) -> Walk {
    let own = random::drawn(index, 0, 32768);
    let once = opened(own).step(random::allowance(own));
    once.walk.step(random::allowance(index)).walk
}

// A walk on the way, or a record. A flag says which: a closure in its place would ask a clause of five functions.
pub fn numbered(is_walk: bool, index: usize) -> Walk {
    if is_walk {
        return walked(index);
    }
    random::record(index)
}

// Up to 6 trials, or plenty, more often plenty.
pub fn allowance(index: usize) -> u64 {
    let own = random::drawn(index, 75, 32768);
    if random::drawn(own, 5, 2) == 0 {
        return random::allowance(own);
    }
    1000
}

// The offer of a look at it.
pub fn offer_of(is_walk: bool, index: usize) -> Offer {
    offers::look(numbered(is_walk, index), allowance(index)).offer
}

// A look, and takes of its offer there and after a step in between, of the next one's offer, and of a refused look's.
fn compare(counts: Counts, is_walk: bool, index: usize) -> Counts {
    let walk = numbered(is_walk, index);
    let offer = offer_of(is_walk, index);
    let between = walk.step(random::allowance(index)).walk;
    let looked = counts::looks(counts, walk, allowance(index));
    let taken = counts::takes(looked, walk, offer);
    let later = counts::takes(taken, between, offer);
    let other = counts::takes(later, walk, offer_of(is_walk, index.wrapping_add(1)));
    counts::takes(other, walk, Offer::refused())
}

pub fn show_random(name: &[u8], is_walk: bool) {
    for part in 0..4 {
        let from = part * 2000;
        let mut counts = Counts::new();
        for index in from..from + 2000 {
            counts = compare(counts, is_walk, index);
        }
        io::write_all(1, name);
        counts::print(counts, from, from + 2000);
    }
}
