// Pitch lists: specimens, refusals in their order, and all short lists and all rows of up to 10 stations against plain
// search.
#![tactic(auto)]

mod all_lists;
mod all_rows;
mod lists;

fn main() {
    lists::show_all();
    all_rows::compare_all();
    all_lists::compare_all();
}
