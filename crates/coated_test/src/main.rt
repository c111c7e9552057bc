// How one row fits another: specimens, refusals in their order, and pairs of rows against plain search.
#![tactic(auto)]

mod pairs;
mod signed;
mod single;

fn main() {
    single::show_all();
    pairs::compare_all();
}
