// The turned-over key of all rows of up to 10 stations and of longer rows that go on with them, against plain search.
use std::cmp::Ordering;
use test_rows::{FRESH, SHORT_ROWS, cases};

// Whether some turn of a row stands so to another row.
fn some_turn(row: &[u8], other: &[u8], order: Ordering) -> bool {
    (0..row.len()).any(|j| test_rows::order(row, j, other, 0) == order)
}

// The same of the turns of a row and of its reverse.
fn some_fitting(row: &[u8], other: &[u8], order: Ordering) -> bool {
    let back = test_rows::reversed(row);
    some_turn(row, other, order) || some_turn(cases::part(&back, 0, row.len()), other, order)
}

// Whether the buffer has the least of the turns of both at its front, and is otherwise as it was.
fn key_agrees(row: &[u8]) -> bool {
    let mut out = [FRESH; refusal::MOST_STATIONS];
    let answer = bracelet::turned_key(row, &mut out);
    let key = cases::part(&out, 0, row.len());
    answer.is_ok()
        && !some_fitting(row, key, Ordering::Less)
        && some_fitting(row, key, Ordering::Equal)
        && test_rows::count_fresh(&out).wrapping_add(row.len()) == refusal::MOST_STATIONS
}

pub fn compare_all() {
    test_rows::print_counts(
        b"turned key",
        SHORT_ROWS,
        test_rows::count_short(key_agrees),
    );
    test_rows::print_counts(
        b"turned key of longer rows",
        SHORT_ROWS,
        test_rows::count_repeated(key_agrees),
    );
}
