// Calls with numbers and limits in and out of range, in all combinations: what is refused, against a plain decision.
use crate::asked;
use lengths::Length;
use refusal::Refusal;
use test_rows::openings::Outcome;
use test_rows::{Drawer, openings};

// What stands for a ceiling.
const CEILING: usize = 600;

// An exact length 0, a ceiling, or the refusal.
fn told(length: Result<Length, Refusal>) -> usize {
    match length {
        Ok(Length::Exactly(_)) => 0,
        Ok(Length::AtMost(_)) => CEILING,
        Err(r) => openings::refused(r),
    }
}

fn due(drawer: Drawer, row: &openings::Row) -> usize {
    let taken = 1 <= drawer.kind && drawer.kind <= 3;
    let refusal = openings::row_refusal(drawer, taken, row);
    if refusal == 0 && drawer.kind == 3 {
        return CEILING;
    }
    refusal
}

// The length from limit i.
fn ask(drawer: Drawer, i: usize) -> Outcome {
    let row = openings::numbered(i);
    let told = told(asked::length(drawer, row.symbols()));
    Outcome {
        told,
        agrees: told == due(drawer, &row),
    }
}

pub fn compare() {
    openings::show_calls::<7, _>(
        b"exactly # refused 1 # 2 # 3 # 4 # 5 # at most #\n",
        openings::ROWS,
        ask,
    );
}
