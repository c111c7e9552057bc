// Pitch lists of all rows of up to 10 stations, against plain search.
use crate::lists::FRESH_PITCH;
use refusal::Refusal;
use test_rows::{FRESH, SHORT_ROWS, cases};

// How many stations back from a station the hole before it lies, or the front of the row: the row up to the station is
// looked through.
fn stations_back(row: &[u8]) -> usize {
    row.iter().rev().position(|x| *x == 1).unwrap_or(row.len()) + 1
}

// Whether the list has the stations back from each hole in turn, and is otherwise as it was.
fn is_list(list: &[usize; refusal::MOST_STATIONS], row: &[u8]) -> bool {
    let mut rest = list.iter();
    for (i, x) in row.iter().enumerate() {
        if *x == 1 && rest.next().copied() != Some(stations_back(cases::part(row, 0, i))) {
            return false;
        }
    }
    rest.all(|pitch| *pitch == FRESH_PITCH)
}

// Whether a list of pitches gives the row.
fn gives_row(list: &[usize], row: &[u8]) -> bool {
    let mut out = [FRESH; refusal::MOST_STATIONS];
    let answer = pitches::row_of_pitches(row.len(), list, &mut out);
    answer.is_ok() && cases::part(&out, 0, row.len()) == row
}

// Whether the list that a row is given is the row's and gives it back.
fn is_listed(row: &[u8]) -> bool {
    let mut list = [FRESH_PITCH; refusal::MOST_STATIONS];
    let Ok(k) = pitches::pitches_of_row(row, &mut list) else {
        return false;
    };
    match list.get(..k) {
        Some(front) => is_list(&list, row) && gives_row(front, row),
        None => false,
    }
}

// Whether a row is refused its list, as one that ends in no hole.
fn is_refused(row: &[u8]) -> bool {
    let mut list = [FRESH_PITCH; refusal::MOST_STATIONS];
    pitches::pitches_of_row(row, &mut list) == Err(Refusal::LastPlain)
}

// Whether the row ends in a hole, or has none.
fn has_list(row: &[u8]) -> bool {
    row.last() == Some(&1) || test_rows::count(row, 1) == 0
}

pub fn compare_all() {
    let listed = test_rows::count_short(has_list);
    test_rows::print_counts(
        b"pitch list and back",
        listed,
        test_rows::count_short(is_listed),
    );
    let others = test_rows::count_short(|row| !has_list(row));
    test_rows::print_counts(
        b"no pitch list, refused 8",
        others,
        test_rows::count_short(is_refused),
    );
}
