// Key and class: specimens, refusals in their order, and all rows of up to 10 stations against plain search.
#![tactic(auto)]

mod all_rows;
mod keys;

fn main() {
    keys::show_all();
    all_rows::compare_all();
}
