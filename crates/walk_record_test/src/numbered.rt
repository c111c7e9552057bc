// All records of a few stations.
ghost use Rattle.std.specs.Prelude.{◌<◌, ◌≤◌};
ghost use Rattle.refusal.specs.Verdicts.{most_stations};

use crate::outcomes::Outcomes;
use walk::{Standing, Walk};

// Limit, Given, Ended, then Down 0, Up 0, Down 1, Up 1 and so on.
fn standing_of(number: usize) -> Standing {
    if number == 0 {
        return Standing::Limit;
    }
    if number == 1 {
        return Standing::Given;
    }
    if number < 3 {
        return Standing::Ended;
    }
    let place = (number - 3) / 2;
    if number % 2 == 1 {
        Standing::Down(place)
    } else {
        Standing::Up(place)
    }
}

// The records of n stations, numbered: kinds 0 to 4, up to n + 1 holes, all rows, all standings with places up to n +
// 1. The row kept is one further at each number of holes, and at each round through all of these, so in as many rounds
// as rows each record has each row kept.
#[derive(Clone, Copy)]
struct Records {
    n: usize,
    rows: usize,
    count: usize,
    ghost few_stations: { n ≤ most_stations },
    ghost some_rows: { 0 < rows },
}

impl Records {
    fn record(self, index: usize) -> Walk {
        let n = self.n;
        let kinds = index / 5;
        let densities = kinds / (n + 2);
        let standings = densities / self.rows;
        let turns = standings / (2 * n + 7);
        Walk {
            n,
            d: kinds % (n + 2),
            kind: (index % 5) as u8,
            row: test_rows::row_of_number(n, densities % self.rows),
            at: standing_of(standings % (2 * n + 7)),
            kept: test_rows::row_of_number(n, turns.wrapping_add(kinds)),
        }
    }

    // Steps that are allowed up to 4 trials, or plenty.
    fn show_steps(self, allowance: usize) {
        let mut outcomes = Outcomes::default();
        for index in 0..self.count {
            outcomes = outcomes.with(self.record(index), allowance as u64);
        }
        test_rows::print_filled(b"n # records #", &[self.n, self.count]);
        if allowance < 5 {
            test_rows::print_named(b" allowed ", allowance);
        } else {
            io::write_all(1, b" plenty allowed");
        }
        outcomes.print();
    }
}

// n stations have 5 (n + 2) (2 n + 7) records for each row and each row kept.
fn show_all(n: usize, rows: usize, count: usize)
    requires n_le_most_stations { n ≤ most_stations }
    requires rows_nonzero { 0 < rows }
{
    let records = Records { n, rows, count };
    for allowance in 0..5 {
        records.show_steps(allowance);
    }
    records.show_steps(1000);
}

pub fn show_records() {
    // each with every row kept
    show_all(1, 2, 540);
    show_all(2, 4, 3520);
    show_all(3, 8, 20800);
    show_all(4, 16, 115200);
    // each with one row kept
    show_all(5, 32, 19040);
    show_all(6, 64, 48640);
}
