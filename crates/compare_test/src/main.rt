// The comparison of two rows: single pairs, all pairs of short rows, many of long ones, and parts of rows that begin
// anywhere, against plain search.
#![tactic(auto)]

mod long_rows;
mod parts;
mod plain;
mod short_rows;
mod single;

fn main() {
    single::show_all();
    short_rows::compare_all();
    long_rows::compare_all();
    parts::compare_all();
}
