// Looks and takes: single calls, offers changed in one field or byte, and records at random, against steps.
#![tactic(auto)]

mod changed;
mod counts;
mod single;
mod walks;

fn main() {
    single::show_single();
    changed::show_changed(b"offers changed, walks", true);
    changed::show_changed(b"offers changed, records", false);
    walks::show_random(b"looked at and taken, walks", true);
    walks::show_random(b"looked at and taken, records", false);
}
