// Look-ups of all small numbers and some large ones, against plain sums.
use crate::plain;
use refusal::Refusal;

// How many numbers there are: 0 to 67, and some that are larger.
const NUMBERS: usize = 73;

fn number(i: usize) -> usize {
    match i {
        68 => 127,
        69 => 256,
        70 => 4294967296,
        71 => 9223372036854775808,
        72 => usize::MAX,
        _ => i,
    }
}

// Whether a refusal is the one due, with place 0, or else the plain entry was given.
fn is_due(answer: Result<u64, Refusal>, due: usize, entry: usize) -> bool {
    match answer {
        Ok(x) => due == 0 && x == entry as u64,
        Err(r) => usize::from(refusal::number(r)) == due && refusal::place(r) == 0,
    }
}

fn agrees(plain: &[usize; 4225], lent: &[u64; pascal::ENTRIES], top: usize, bottom: usize) -> bool {
    let due = plain::ways_refusal(top, bottom);
    let entry = plain::entry(plain, top, bottom);
    is_due(pascal::ways(top, bottom), due, entry)
        && is_due(pascal::ways_in(lent, top, bottom), due, entry)
}

pub fn compare() {
    let plain = plain::table();
    let lent = pascal::triangle();
    let mut told = [0usize; 3];
    let mut agreed: usize = 0;
    for i in 0..NUMBERS * NUMBERS {
        let top = number(i / NUMBERS);
        let bottom = number(i % NUMBERS);
        let due = plain::ways_refusal(top, bottom) % 3;
        told[due] = told[due].wrapping_add(1);
        agreed += usize::from(agrees(&plain, &lent, top, bottom));
    }
    test_rows::print_filled(
        b"look-ups: calls # agreed # given # refused 1 # 2 #\n",
        &[NUMBERS * NUMBERS, agreed, told[0], told[1], told[2]],
    );
}
