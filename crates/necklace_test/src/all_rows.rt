// Key and class of all rows of up to 10 stations, and of longer rows that go on with them, against plain search.
use test_rows::{FRESH, SHORT_ROWS, cases};

// The smallest turn that is least.
fn first_least(row: &[u8]) -> usize {
    let mut turns = 0..row.len();
    turns
        .find(|j| test_rows::is_least(row, *j))
        .unwrap_or(row.len())
}

fn key_agrees(row: &[u8]) -> bool {
    let mut out = [FRESH; refusal::MOST_STATIONS];
    let Ok(key) = necklace::key(row, &mut out) else {
        return false;
    };
    key.rotation == first_least(row)
        && key.period == test_rows::period(row)
        && test_rows::order(cases::part(&out, 0, row.len()), 0, row, key.rotation).is_eq()
}

fn class_agrees(row: &[u8]) -> bool {
    let shelved = test_rows::is_least(row, 0);
    let Ok(class) = necklace::class(row) else {
        return false;
    };
    class.necklace == shelved && class.lyndon == (shelved && !test_rows::has_symmetry(row))
}

pub fn compare_all() {
    test_rows::print_counts(b"key", SHORT_ROWS, test_rows::count_short(key_agrees));
    test_rows::print_counts(b"class", SHORT_ROWS, test_rows::count_short(class_agrees));
    test_rows::print_counts(
        b"key of longer rows",
        SHORT_ROWS,
        test_rows::count_repeated(key_agrees),
    );
    test_rows::print_counts(
        b"class of longer rows",
        SHORT_ROWS,
        test_rows::count_repeated(class_agrees),
    );
}
