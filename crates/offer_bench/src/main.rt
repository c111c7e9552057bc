// Walks a drawer from n ones, in up to 25500 steps, and prints the trials and places. Read: the bytes n, d, the way
// that each step is made, and the steps in hundreds. Way 0 is a step, 1 a look and then a step, 2 a look and then its
// take, so that the costs of both come out.
#![tactic(auto)]

ghost use Rattle.std.specs.Prelude.{◌≤◌};
ghost use Rattle.refusal.specs.Verdicts.{most_stations};

use walk::{Stepped, Walk};

// More trials than any step here makes.
const ALLOWANCE: u64 = 1000000;

fn next(walk: Walk, way: u8) -> Stepped {
    if way == 0 {
        return walk.step(ALLOWANCE);
    }
    let looked = offers::look(walk, ALLOWANCE);
    let same = looked.walk;
    if way == 1 {
        return same.step(ALLOWANCE);
    }
    offers::take(same, looked.offer)
}

fn walk_drawer(n: usize, d: usize, way: u8, most: u64)
    requires { n ≤ most_stations }
{
    let limit = [1u8; refusal::MOST_STATIONS];
    let opened = Walk::open(n, d, 1, &limit[..n]);
    let mut walk = opened.walk;
    let mut trials: u64 = 0;
    let mut places: usize = 0;
    for _ in 0..most {
        let stepped = next(walk, way);
        walk = stepped.walk;
        trials = trials.wrapping_add(stepped.trials);
        places = places.wrapping_add(stepped.place);
    }
    io::print_decimal(1, trials);
    io::write_all(1, b" trials ");
    // by `as`: no From leads from a usize to a u64
    io::print_decimal(1, places as u64);
    io::write_all(1, b" places\n");
}

fn main() {
    let mut asked = [0u8; 4];
    if io::read_full(0, &mut asked) < 4 {
        return;
    }
    let [n, d, way, hundreds] = asked;
    if usize::from(n) <= refusal::MOST_STATIONS {
        walk_drawer(
            usize::from(n),
            usize::from(d),
            way,
            u64::from(hundreds) * 100,
        );
    }
}
