// Prints top rings, compares all of them with the closed form, and shows the refusals.
#![tactic(auto)]

ghost use Rattle.std.specs.Prelude.{◌<◌, ◌≤◌};
ghost use Rattle.refusal.specs.Verdicts.{most_stations};

use test_rows::FRESH;

// Whether each symbol of the row is floor(i d / n) - floor((i - 1) d / n), at its place i.
fn agrees(n: usize, d: usize, row: &[u8; refusal::MOST_STATIONS]) -> bool
    requires n_nonzero { 0 < n }
    requires n_le_most_stations { n ≤ most_stations }
    requires d_le_most_stations { d ≤ most_stations }
{
    let mut product: usize = 0;
    for x in &row[..n] {
        let before = product / n;
        product += d;
        if before + usize::from(*x) != product / n {
            return false;
        }
    }
    true
}

// Whether the top ring of (n, d) is written, and agrees.
fn top_agrees(n: usize, d: usize) -> bool
    requires n_nonzero { 0 < n }
    requires n_le_most_stations { n ≤ most_stations }
    requires d_le_most_stations { d ≤ most_stations }
{
    let mut out = [FRESH; refusal::MOST_STATIONS];
    let answer = largest::largest_necklace(n, d, &mut out);
    answer.is_ok() && agrees(n, d, &out)
}

// All top rings of up to 64 stations.
fn compare_all() {
    let mut compared: usize = 0;
    let mut agreed: usize = 0;
    for n in 1..=refusal::MOST_STATIONS {
        for d in 0..=n {
            agreed += usize::from(top_agrees(n, d));
            compared += 1;
        }
    }
    test_rows::print_filled(b"compared # agreed #\n", &[compared, agreed]);
}

// A line for the question of (n, d) with a buffer of 64 bytes, of which room are lent.
fn show(n: usize, d: usize, room: usize)
    requires { room ≤ most_stations }
{
    let mut out = [FRESH; refusal::MOST_STATIONS];
    let answer = largest::largest_necklace(n, d, &mut out[..room]);
    test_rows::print_filled(b"# # ", &[n, d]);
    test_rows::print_written(answer, n, &out);
}

fn show_all(most: usize)
    requires { most ≤ most_stations }
{
    for n in 1..=most {
        for d in 0..=n {
            show(n, d, 64);
        }
    }
}

fn main() {
    show_all(12);
    compare_all();
    show(8, 3, 8);
    show(8, 5, 8);
    show(64, 64, 64);
    show(4, 5, 64);
    show(0, 0, 64);
    show(65, 1, 64);
    show(8, 3, 7);
    show(65, 66, 0);
    show(8, 9, 0);
}
