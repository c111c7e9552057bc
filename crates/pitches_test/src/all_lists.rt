// Rows of all lists of up to 4 pitches from 0 to 6, at 0 to 12 stations and in two buffers, against plain search.
ghost use Rattle.std.specs.Prelude.{◌≤◌};

use refusal::Refusal;
use test_rows::FRESH;

// The place of the first 0 of the list, from 1, looked for from its end.
fn zero_place(list: &[usize]) -> Option<usize> {
    let mut place = None;
    for k in (0..list.len()).rev() {
        if list[k] == 0 {
            place = Some(k + 1);
        }
    }
    place
}

// The sum of the first k numbers of a list.
fn sum(list: &[usize], k: usize) -> usize {
    list.iter().take(k).fold(0, |sum, x| sum.wrapping_add(*x))
}

// Whether some first pitches add up to the station.
fn is_hole(list: &[usize], station: usize) -> bool {
    (1..=list.len()).any(|k| sum(list, k) == station)
}

// The refusal's number, 0 where the row is written. The numbers are written out: this decision is none of the library's.
fn number_due(n: usize, list: &[usize], room: usize) -> usize {
    if n == 0 {
        return 1;
    }
    if n < list.len() {
        return 2;
    }
    if zero_place(list).is_some() {
        return 11;
    }
    if !list.is_empty() && sum(list, list.len()) != n {
        return 7;
    }
    if room < n { 9 } else { 0 }
}

// Whether the buffer has a row of n stations at its front, and is otherwise as it was.
fn holds_row(out: &[u8; 16], n: usize, list: &[usize]) -> bool {
    let mut bytes = out.iter().enumerate();
    bytes.all(|(i, x)| *x
        == if i < n {
            u8::from(is_hole(list, i + 1))
        } else {
            FRESH
        })
}

// The refusal's number, 0 where the row was written.
fn number_told(answer: Result<(), Refusal>) -> usize {
    answer.err().map_or(0, |r| usize::from(refusal::number(r)))
}

fn place_told(answer: Result<(), Refusal>) -> usize {
    answer.err().map_or(0, refusal::place)
}

// What a call told, and whether answer and buffer are those of plain search.
#[derive(Clone, Copy)]
struct Outcome {
    number: usize,
    place: usize,
    agrees: bool,
}

fn call(n: usize, list: &[usize], room: usize) -> Outcome
    requires { room ≤ 16 }
{
    let mut out = [FRESH; 16];
    let answer = pitches::row_of_pitches(n, list, &mut out[..room]);
    let number = number_told(answer);
    let place = place_told(answer);
    let due = number_due(n, list, room);
    let place_due = if due == 11 {
        zero_place(list).unwrap_or(0)
    } else {
        0
    };
    let written = if due == 0 { n } else { 0 };
    Outcome {
        number,
        place,
        agrees: number == due && place == place_due && holds_row(&out, written, list),
    }
}

// How many lists of so many pitches there are.
fn lists(count: usize) -> usize
    ensures { result ≤ 2401 }
{
    match count {
        0 => 1,
        1 => 7,
        2 => 49,
        3 => 343,
        _ => 2401,
    }
}

// The list of a number: its digits, base 7.
fn list_of(number: usize) -> [usize; 4] {
    [
        number % 7,
        number / 7 % 7,
        number / 49 % 7,
        number / 343 % 7,
    ]
}

// A buffer with room for any of the rows, and one without, by turns.
fn room_of(turn: usize) -> usize
    ensures { result ≤ 16 }
{
    if turn % 2 == 0 { 16 } else { 7 }
}

fn compare_lists(count: usize)
    requires { count ≤ 4 }
{
    let calls = lists(count) * 26;
    let mut agreed: usize = 0;
    let mut places: usize = 0;
    let mut told = [0usize; 12];
    for index in 0..calls {
        let list = list_of(index / 26);
        let outcome = call(index % 13, &list[..count], room_of(index / 13));
        let number = outcome.number % 12;
        agreed += usize::from(outcome.agrees);
        places = places.wrapping_add(outcome.place);
        told[number] = told[number].wrapping_add(1);
    }
    test_rows::print_filled(
        b"lists of # pitches: calls # agreed #",
        &[count, calls, agreed],
    );
    test_rows::print_filled(
        b" written # refused 1 # 2 # 11 # 7 # 9 # places #\n",
        &[
            told[0], told[1], told[2], told[11], told[7], told[9], places,
        ],
    );
}

pub fn compare_all() {
    for count in 0..5 {
        compare_lists(count);
    }
}
