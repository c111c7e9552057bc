// Walks a drawer from n ones, up to 2000 rings, and prints the rings and the trials. Read: the bytes n, d, kind, and
// the rings wanted in hundreds.
#![tactic(auto)]

ghost use Rattle.std.specs.Prelude.{◌≤◌};
ghost use Rattle.refusal.specs.Verdicts.{most_stations};

use walk::{Answer, Walk};

// More trials than any run here makes.
const ALLOWANCE: u64 = 1000000000000;

fn print_counts(rings: u64, trials: u64, places: usize) {
    io::print_decimal(1, rings);
    io::write_all(1, b" rings ");
    io::print_decimal(1, trials);
    io::write_all(1, b" trials ");
    // by `as`: no From leads from a usize to a u64
    io::print_decimal(1, places as u64);
    io::write_all(1, b" places\n");
}

// The allowance is one for the whole walk: what a step made is not allowed to the next.
fn walk_drawer(n: usize, d: usize, kind: u8, most: u64)
    requires { n ≤ most_stations }
{
    let limit = [1u8; refusal::MOST_STATIONS];
    let opened = Walk::open(n, d, kind, &limit[..n]);
    let mut walk = opened.walk;
    let mut left = ALLOWANCE;
    let mut places: usize = 0;
    for rings in 0..most {
        let stepped = walk.step(left);
        if left < stepped.trials {
            return;
        }
        left -= stepped.trials;
        walk = stepped.walk;
        places = places.wrapping_add(stepped.place);
        match stepped.answer {
            Ok(Answer::Ring) => {}
            Ok(Answer::None) => return print_counts(rings, ALLOWANCE - left, places),
            Err(_) => return,
        }
    }
    print_counts(most, ALLOWANCE - left, places);
}

fn main() {
    let mut asked = [0u8; 4];
    if io::read_full(0, &mut asked) < 4 {
        return;
    }
    let [n, d, kind, hundreds] = asked;
    if usize::from(n) <= refusal::MOST_STATIONS {
        walk_drawer(
            usize::from(n),
            usize::from(d),
            kind,
            u64::from(hundreds) * 100,
        );
    }
}
