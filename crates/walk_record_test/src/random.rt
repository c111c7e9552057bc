// Steps of records at random.
ghost use Rattle.std.specs.Prelude.{◌≤◌};

use crate::outcomes::Outcomes;
use test_walks::random;

// Steps of the records from one number up to another.
fn step_records(from: usize, to: usize) -> Outcomes {
    let mut outcomes = Outcomes::default();
    for index in from..to {
        outcomes = outcomes.with(random::record(index), random::allowance(index));
    }
    outcomes
}

fn show_records(from: usize, to: usize) {
    test_rows::print_named(b"at random, records ", from);
    test_rows::print_named(b" up to ", to);
    step_records(from, to).print();
}

pub fn show_random() {
    show_records(0, 5000);
    show_records(5000, 10000);
    show_records(10000, 15000);
    show_records(15000, 20000);
}
