// The prefix question against a listing of all necklaces of up to 10 stations, its pitfalls, and its refusals in their
// order.
#![tactic(auto)]

ghost use Rattle.std.specs.Prelude.{◌<◌};

use refusal::Refusal;
use test_rows::cases;

// A row is listed under its number: a binary 1 and then its symbols. Half of the number is that of the row without its
// last symbol. Behind each number there is a mark for each density.
const DENSITIES: usize = 11;

const MARKS: usize = 2048 * DENSITIES;

// Marks the row with that number, where it is a necklace of n stations, and all that begins it.
fn mark(marks: &mut [bool; MARKS], n: usize, number: usize)
    requires { number < 2048 }
{
    if test_rows::stations(number) != n {
        return;
    }
    let symbols = test_rows::row_of_number(n, number);
    let row = cases::part(&symbols, 0, n);
    if !test_rows::is_least(row, 0) {
        return;
    }
    let d = test_rows::count(row, 1) % DENSITIES;
    let mut rest = number;
    while 0 < rest {
        marks[rest * DENSITIES + d] = true;
        rest /= 2;
    }
}

// The answer to the question of a mark, where n stations have such a question.
fn ask(n: usize, place: usize) -> Option<Result<bool, Refusal>> {
    let number = place / DENSITIES;
    let d = place % DENSITIES;
    let t = test_rows::stations(number);
    if n < t || n < d {
        return None;
    }
    let row = test_rows::row_of_number(t, number);
    Some(prefix::ask(n, d, cases::part(&row, 0, t)))
}

// All questions on n stations.
fn ask_all(marks: &[bool; MARKS], n: usize) {
    let mut asked: usize = 0;
    let mut agreed: usize = 0;
    let mut begun: usize = 0;
    for place in DENSITIES..MARKS {
        if let Some(answer) = ask(n, place) {
            asked += 1;
            agreed += usize::from(answer == Ok(marks[place]));
            begun += usize::from(answer == Ok(true));
        }
    }
    test_rows::print_filled(b"# asked # agreed # yes #\n", &[n, asked, agreed, begun]);
}

fn compare(n: usize) {
    let mut marks = [false; MARKS];
    for number in 2..2048 {
        mark(&mut marks, n, number);
    }
    ask_all(&marks, n);
}

fn compare_all() {
    for n in 1..=10 {
        compare(n);
    }
}

// ---- single questions

// The question on a line: stations, holes, and the prefix as digits.
fn show(line: &[u8]) {
    let n = cases::number(line, 0);
    let d = cases::number(line, 1);
    let digits = cases::word(line, 2);
    let row = cases::symbols(digits);
    test_rows::print_filled(b"(#,#) prefix ", &[n, d]);
    io::write_all(1, digits);
    io::write_all(1, b": ");
    match prefix::ask(n, d, cases::part(&row, 0, digits.len())) {
        Ok(yes) => test_rows::print_truth(yes),
        Err(r) => test_rows::print_refusal(r),
    }
    io::write_all(1, b"\n");
}

fn main() {
    compare_all();
    // pitfalls, then refusals
    cases::each(
        b"4 3 0\n\
          8 3 0010\n\
          8 3 010\n\
          8 3 \n\
          8 0 00\n\
          8 0 01\n\
          8 8 1\n\
          8 8 0\n\
          1 0 0\n\
          1 1 1\n\
          8 3 00100101\n\
          8 3 00101001\n\
          8 3 0010101\n\
          6 3 010101\n\
          2 1 10\n\
          8 4 10\n\
          8 4 01100\n\
          8 3 01111\n\
          8 7 00\n\
          64 32 01\n\
          64 32 0101010101010101010101010101010101010101010101010101010101010101\n\
          64 64 1\n\
          0 0 \n\
          65 0 \n\
          0 1 2\n\
          65 66 2\n\
          4 5 \n\
          4 5 00000\n\
          4 5 20000\n\
          4 3 00000\n\
          4 3 20000\n\
          64 64 11111111111111111111111111111111111111111111111111111111111111112\n\
          4 3 02\n\
          4 3 0232\n\
          8 3 1002\n\
          8 3 11112\n",
        b'\n',
        show,
    );
}
