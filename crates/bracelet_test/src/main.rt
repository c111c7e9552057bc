// The turned-over key: specimens, refusals in their order, and short rows against plain search.
#![tactic(auto)]

mod all_rows;
mod single;

fn main() {
    single::show_all();
    all_rows::compare_all();
}
