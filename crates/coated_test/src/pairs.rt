// How all pairs of short rows fit, and longer rows the turns of themselves and of their reverses, against plain search.
ghost use Rattle.std.specs.Prelude.{◌<◌};

use crate::signed;
use coated::FitAnswer;
use refusal::Refusal;
use test_rows::{cases, openings};

// The byte of a sort, at an index: 0, 1, and the wrong bytes 2 and 255 by turns.
fn byte(sort: usize, i: usize) -> u8 {
    match sort {
        0 => 0,
        1 => 1,
        _ => if i % 2 == 0 { 2 } else { 255 },
    }
}

#[derive(Clone, Copy)]
struct Numbered {
    row: [u8; refusal::MOST_STATIONS],
    n: usize,
}

impl Numbered {
    fn symbols(&self) -> &[u8] {
        cases::part(&self.row, 0, self.n)
    }
}

// The row with a number. Over so many sorts of bytes all rows are numbered from 0, shorter rows first.
fn row_of(number: usize, sorts: usize) -> Numbered
    requires { 0 < sorts }
{
    let mut row = [0u8; refusal::MOST_STATIONS];
    let mut rest = number;
    for n in 0..refusal::MOST_STATIONS {
        if rest == 0 {
            return Numbered { row, n };
        }
        row[n] = byte((rest - 1) % sorts, n);
        rest = (rest - 1) / sorts;
    }
    Numbered {
        row,
        n: refusal::MOST_STATIONS,
    }
}

// ---- what is due

// The place of the first wrong byte, from 1, looked for from the end.
fn wrong_place(row: &[u8]) -> Option<usize> {
    let mut place = None;
    for i in (0..row.len()).rev() {
        if 1 < row[i] {
            place = Some(i + 1);
        }
    }
    place
}

// An answer as a number, since parts of it are summed and printed: 0 for different; 10000 by turning only, 20000 by
// turning over only, 30000 by both, and the turn; a refusal is 100 times its number and then its place.
const TURNING: usize = 10000;

const OVER: usize = 20000;

const BOTH: usize = 30000;

fn answer_told(answer: Result<FitAnswer, Refusal>) -> usize {
    match answer {
        Ok(FitAnswer::Different) => 0,
        Ok(FitAnswer::Turning(s)) => TURNING + signed::told(s),
        Ok(FitAnswer::Over(s)) => OVER + signed::told(s),
        Ok(FitAnswer::Both(s)) => BOTH + signed::told(s),
        Err(r) => openings::refused(r),
    }
}

// The nearest of the turns that take a row to another: all turns are looked at, each as one up and as one down.
fn nearest(row: &[u8], other: &[u8]) -> Option<usize> {
    let n = row.len();
    let mut best = None;
    let mut amount = usize::MAX;
    for j in 0..n {
        if test_rows::order(row, j, other, 0).is_eq() {
            if j <= amount {
                best = Some(j);
                amount = j;
            }
            if n - j < amount {
                best = Some(5000usize.wrapping_add(n - j));
                amount = n - j;
            }
        }
    }
    best
}

fn answer_due(row: &[u8], other: &[u8]) -> usize {
    if row.is_empty() {
        return 100;
    }
    if other.len() != row.len() {
        return 400;
    }
    if let Some(place) = wrong_place(row).or(wrong_place(other)) {
        return 300usize.wrapping_add(place);
    }
    let back = test_rows::reversed(row);
    let plain = nearest(row, other);
    let over = nearest(cases::part(&back, 0, row.len()), other);
    match (plain, over) {
        (None, None) => 0,
        (Some(turn), None) => TURNING.wrapping_add(turn),
        (None, Some(turn)) => OVER.wrapping_add(turn),
        (Some(turn), Some(_)) => BOTH.wrapping_add(turn),
    }
}

#[derive(Clone, Copy)]
struct Compared {
    answer: usize,
    agrees: bool,
}

fn compare(row: &[u8], other: &[u8]) -> Compared {
    let answer = answer_told(coated::fit(row, other));
    Compared {
        answer,
        agrees: answer == answer_due(row, other),
    }
}

// ---- pairs

// A turn of a row, or of its reverse, by a quarter of the number; for each fourth number the first symbol is changed.
fn partner(row: &[u8], number: usize) -> [u8; refusal::MOST_STATIONS] {
    let n = row.len();
    let back = test_rows::reversed(row);
    let read = if number % 4 < 2 {
        row
    } else {
        cases::part(&back, 0, n)
    };
    let mut other = [0u8; refusal::MOST_STATIONS];
    for (i, x) in other.iter_mut().take(n).enumerate() {
        *x = test_rows::symbol(read, number / 4, i);
    }
    let first = other[0] % 2;
    other[0] = if number % 4 == 1 { 1 - first } else { first };
    other
}

// The row with a number, of up to 10 stations, repeated to 11 to 64, and a turn.
fn compare_longer(number: usize) -> Compared {
    let p = test_rows::stations(number);
    let n = 11 + number % 54;
    let short = test_rows::row_of_number(p, number);
    let longer = test_rows::repeated(cases::part(&short, 0, p), n);
    let row = cases::part(&longer, 0, n);
    compare(row, cases::part(&partner(row, number), 0, n))
}

// The pair with a number, of the first so many rows; with none of them, a longer row and a turn.
fn compare_pair(number: usize, sorts: usize, rows: usize) -> Compared
    requires { 0 < sorts }
{
    if rows == 0 {
        return compare_longer(number);
    }
    let row = row_of(number / rows, sorts);
    let other = row_of(number % rows, sorts);
    compare(row.symbols(), other.symbols())
}

// The sort of an answer: a refusal's number, 0 for different, 11 to 13 for the others.
fn sort(answer: usize) -> usize
    ensures { result < 100 }
{
    if answer < TURNING {
        return answer / 100;
    }
    10 + answer / 10000 % 10
}

// So many pairs.
fn compare_pairs(sorts: usize, rows: usize, pairs: usize)
    requires { 0 < sorts }
{
    let mut agreed: usize = 0;
    let mut sizes: usize = 0;
    let mut below: usize = 0;
    let mut told = [0usize; 100];
    for pair in 0..pairs {
        let compared = compare_pair(pair, sorts, rows);
        let answer = compared.answer;
        let k = sort(answer);
        agreed += usize::from(compared.agrees);
        below += usize::from(answer / 5000 % 2 == 1);
        sizes = sizes.wrapping_add(answer % 100);
        told[k] = told[k].wrapping_add(1);
    }
    test_rows::print_filled(b" compared # agreed #", &[pairs, agreed]);
    test_rows::print_filled(
        b" different # turning # over # both # turns below zero #",
        &[told[0], told[11], told[12], told[13], below],
    );
    test_rows::print_filled(
        b" refused 1 # 4 # 3 # places and amounts #\n",
        &[told[1], told[4], told[3], sizes],
    );
}

pub fn compare_all() {
    io::write_all(1, b"pairs of rows of up to 8 stations:");
    compare_pairs(2, 511, 261121);
    io::write_all(1, b"pairs of rows of up to 6 stations, with wrong bytes:");
    compare_pairs(3, 1093, 1194649);
    io::write_all(1, b"longer rows and turns:");
    compare_pairs(2, 0, 2048);
}
