// The ways to choose: single look-ups, a count of all rows, and the whole table with its refusals against sums made
// here.
#![tactic(auto)]

mod counted;
mod grid;
mod plain;
mod single;

fn main() {
    single::show_all();
    counted::compare_all();
    grid::compare();
}
