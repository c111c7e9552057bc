// Shows the drawer program's printed lines, and compares many of them.
#![tactic(auto)]

mod compare;

use refusal::Refusal;
use test_rows::FRESH;

// What is written to the front of a buffer.
fn show<F: FnOnce(&mut [u8]) -> usize>(write: F)
    requires { F.IsAlwaysCallable write }
{
    let mut out = [FRESH; 256];
    let n = write(&mut out);
    test_texts::print_front(n, &out);
}

fn show_ring(number: u64, row: &[u8], period: u64, trials: u64) {
    show(|out| drawer_lines::write_ring(number, row, period, trials, out));
}

fn show_end(trials: u64) {
    show(|out| drawer_lines::write_end(trials, out));
}

fn show_refusal(r: Refusal) {
    show(|out| drawer_lines::write_refusal(r, out));
}

fn show_rings() {
    let most = u64::MAX;
    show_ring(1, &[0, 1, 0, 1, 0, 1], 2, 11);
    show_ring(2, &[0, 0, 1, 1, 0, 1], 6, 6);
    show_ring(9, &[0], 1, 0);
    show_ring(10, &[], 0, 9);
    show_ring(99, &[1, 1], 1, 100);
    show_ring(most, &[1; 64], 64, most);
}

fn show_ends() {
    show_end(2);
    show_end(0);
    show_end(10000000000000000000);
}

fn show_refusals() {
    let most = usize::MAX;
    show_refusal(Refusal::Stations);
    show_refusal(Refusal::Symbol(12));
    show_refusal(Refusal::Text(3));
    show_refusal(Refusal::Unfit);
    show_refusal(Refusal::Text(most));
}

fn main() {
    show(drawer_lines::write_header);
    show_rings();
    show_ends();
    show_refusals();
    compare::compare_rooms();
    compare::compare_ends();
}
