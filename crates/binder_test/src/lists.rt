// Lists of calls: at random from a fresh binder, and name by name from a binder at random.
ghost use Rattle.std.specs.Prelude.{◌<◌};

use crate::calls;
use crate::calls::Held;
use crate::counts::Counts;
use crate::model::{Entry, Stand};
use binder::Binder;
use test_walks::random;

// 0 to 9, 255, the highest number, then 0 and 1 by turns.
fn name_of(x: usize) -> usize {
    if x < 10 {
        return x;
    }
    if x == 10 {
        return 255;
    }
    if x == 11 {
        return usize::MAX;
    }
    x % 2
}

// An allowance as for steps, or plenty.
fn look_allowance(own: usize) -> u64 {
    if random::drawn(own, 10, 2) == 0 {
        return random::allowance(own);
    }
    1000
}

// A call at random. Its numbers lie apart from those of the records; what it is called with is drawn from a number of
// its own, so that it doesn't hang together with which call it is.
fn call(held: Held, index: usize) -> Held {
    let from = index.wrapping_add(800000);
    let own = random::drawn(from, 8, 32768);
    let name = name_of(random::drawn(own, 1, 32));
    let age = random::drawn(own, 8, 1 + random::drawn(own, 9, calls::OFFERS));
    match random::drawn(from, 0, 32) {
        0..=4 => held.opens(calls::opened(own)),
        5..=10 => held.steps(random::allowance(own)),
        11..=17 => held.looks(look_allowance(own)),
        18..=24 => held.takes(age),
        25..=27 => held.puts(name, held.stand),
        28 => held.puts_record(name, index),
        _ => held.fetches(name),
    }
}

// The number of a part of something with a number, of so many parts each.
fn part_of(number: usize, parts: usize, k: usize) -> usize {
    number.wrapping_mul(parts).wrapping_add(k)
}

// A list at random, from a fresh binder.
pub fn compare_list(counts: Counts, list: usize) -> Counts {
    let mut held = Held::new(counts);
    for i in 0..50 {
        held = call(held, part_of(list, 50, i));
    }
    held.counts
}

// A record at random under a name, or nothing.
fn with_record(held: Held, name: usize, index: usize) -> Held
    requires { name < 8 }
{
    if random::drawn(index, 74, 3) == 0 {
        return held;
    }
    let walk = random::record(index);
    let stand = Stand { walk, book: None };
    let mut bookmarks = held.binder.bookmarks;
    bookmarks[name] = Some(walk);
    Held {
        binder: Binder { bookmarks },
        log: held.log.with(Entry { name, stand }),
        ..held
    }
}

// A binder that no list of puts makes: a record under most names.
fn at_random(counts: Counts, index: usize) -> Held {
    let mut held = Held::new(counts);
    for name in 0..binder::NAMES {
        let record = part_of(index, binder::NAMES, name).wrapping_add(100000);
        held = with_record(held, name, record);
    }
    held
}

// A fetch, a step of what it gives, and a put of a record.
fn try_name(held: Held, name: usize, index: usize) -> Held {
    let stepped = held.fetches(name).steps(random::allowance(index));
    stepped.puts_record(name, index)
}

// A binder at random, with each name tried.
pub fn compare_binder(counts: Counts, number: usize) -> Counts {
    let mut held = at_random(counts, number);
    for x in 0..12 {
        let record = part_of(number, 12, x).wrapping_add(200000);
        held = try_name(held, name_of(x), record);
    }
    held.counts
}
