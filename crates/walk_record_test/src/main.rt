// Steps of records that no opening and no step need hand back: single ones, all of a few stations, and some at random.
#![tactic(auto)]

mod numbered;
mod outcomes;
mod random;
mod single;

fn main() {
    single::show_single();
    numbered::show_records();
    random::show_random();
}
