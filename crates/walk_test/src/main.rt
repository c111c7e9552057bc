// The walk against the book that a plain listing gives, its printed examples, and its refusals.
#![tactic(auto)]

mod shown;

ghost use Rattle.std.specs.Prelude.{◌<◌, ◌≤◌};

use refusal::{MOST_STATIONS, Refusal};
use test_rows::{Drawer, cases};
use test_walks::book::{Book, Next, Shelf};
use walk::{Answer, Standing, Stepped, Walk};

// More steps than any of these walks needs.
const STEPS: usize = 20000;

// ---- walks against the book

// What was compared, and what differed. A walk counts at its step after the end. No count goes above a billion.
#[derive(Clone, Copy, Default)]
struct Counts {
    walks: usize,
    rings: usize,
    trials: usize,
    spent: usize,
    places: usize,
    differing: usize,
}

impl Counts {
    fn plus(self, other: Counts) -> Counts {
        Counts {
            walks: test_walks::plus(self.walks, other.walks),
            rings: test_walks::plus(self.rings, other.rings),
            trials: test_walks::plus(self.trials, other.trials),
            spent: test_walks::plus(self.spent, other.spent),
            places: test_walks::plus(self.places, other.places),
            differing: test_walks::plus(self.differing, other.differing),
        }
    }
}

// The limits that drawers are walked from, the first of them that of ones or the lowest, with how many are skipped
// after each; and the pattern of allowances.
#[derive(Clone, Copy)]
struct Plan {
    from_ones: bool,
    skipped: usize,
    pattern: usize,
}

// The allowances of a walk: always the same from 1 to 3, the cycle 0, 1, 2, 3, plenty after three times 0, or plenty.
fn allowance_of(pattern: usize, i: usize) -> u64
    ensures { result ≤ 1000 }
{
    let turn = (i % 4) as u64;
    match pattern {
        1 => 1,
        2 => 2,
        3 => 3,
        4 => turn,
        5 => turn / 3 * 1000,
        _ => 1000,
    }
}

// Whether a trial is due: at a 1 for Down, or at Up.
fn is_due(row: &[u8; MOST_STATIONS], at: Standing) -> bool {
    match at {
        Standing::Down(p) => 0 < p && row.get(p - 1) == Some(&1),
        Standing::Up(_) => true,
        Standing::Limit => false,
        Standing::Given => false,
        Standing::Ended => false,
    }
}

// Whether the walk's row and standing fit what the book says.
fn left_right(book: Book, said: Result<Answer, Refusal>, before: Walk, after: Walk) -> bool {
    let line = test_rows::row_of_number(book.row.shelf.drawer.n, book.row.number);
    match said {
        Ok(Answer::Ring) => after.row == line && after.at == Standing::Given,
        Ok(Answer::None) => after.row == line && after.at == Standing::Ended,
        Err(Refusal::Ended) => walk_records::same_walk(after, before),
        Err(Refusal::Spent) => is_due(&after.row, after.at),
        Err(_) => false,
    }
}

// A step, compared with what the book says: the answer, the trials, the place, and the walk that is left. `next` is the
// book after it.
fn counted(book: Book, next: Book, allowance: u64, before: Walk, step: Stepped) -> Counts {
    let after = step.walk;
    let line = test_rows::row_of_number(book.row.shelf.drawer.n, next.kept);
    Counts {
        walks: usize::from(book.next == Next::Over),
        rings: usize::from(step.answer == Ok(Answer::Ring)),
        trials: step.trials as usize,
        spent: usize::from(step.answer == Err(Refusal::Spent)),
        places: step.place,
        differing: usize::from(step.answer != book.says(allowance))
            + usize::from(step.trials != book.trials(allowance))
            + usize::from(step.place != book.place(allowance))
            + usize::from(after.kept != line)
            + usize::from(!left_right(book, step.answer, before, after)),
    }
}

// A whole walk, and one step after its end.
fn compare(shelf: Shelf, limit: usize, pattern: usize) -> Counts {
    let n = shelf.drawer.n;
    let row = test_rows::row_of_number(n, limit);
    let opened = test_walks::open(shelf.drawer, cases::part(&row, 0, n));
    let mut walk = opened.walk;
    let mut book = shelf.opened(limit);
    let mut counts = Counts::default();
    for i in 0..STEPS {
        let allowance = allowance_of(pattern, i);
        let next = book.stepped(allowance);
        let step = walk.step(allowance);
        counts = counts.plus(counted(book, next, allowance, walk, step));
        if book.next == Next::Over {
            return counts;
        }
        book = next;
        walk = step.walk;
    }
    counts
}

// A drawer at the limits of a plan.
fn compare_limits(drawer: Drawer, plan: Plan) -> Counts
    requires n_bound { drawer.n ≤ 14 }
    requires skipped_bound { plan.skipped < 1000 }
{
    let shelf = Shelf::new(drawer);
    let mut counts = Counts::default();
    let mut limit = if plan.from_ones {
        2 * shelf.half - 1
    } else {
        0
    };
    while limit < 2 * shelf.half {
        counts = counts.plus(compare(shelf, limit, plan.pattern));
        limit += 1 + plan.skipped;
    }
    counts
}

// All drawers of n stations, of each kind.
fn compare_drawers(n: usize, plan: Plan) -> Counts
    requires n_bound { n ≤ 14 }
    requires skipped_bound { plan.skipped < 1000 }
{
    let mut counts = Counts::default();
    for d in 0..=n {
        for kind in 1..=3 {
            counts = counts.plus(compare_limits(Drawer { n, d, kind }, plan));
        }
    }
    counts
}

fn print_counts(n: usize, counts: Counts) {
    test_rows::print_filled(
        b"n #: walks # rings # trials # spent # places # differing #\n",
        &[
            n,
            counts.walks,
            counts.rings,
            counts.trials,
            counts.spent,
            counts.places,
            counts.differing,
        ],
    );
}

// A line is a name, then stations from and to, the first limit, how many are skipped after each, and the pattern of
// allowances.
fn show_drawers(line: &[u8]) {
    let fields = cases::piece(line, b':', 1);
    let first = cases::number(fields, 1);
    let last = cases::number_to(fields, 2, 14);
    let plan = Plan {
        from_ones: cases::first_byte(cases::word(fields, 3)) == b'o',
        skipped: cases::number_to(fields, 4, 999),
        pattern: cases::number(fields, 5),
    };
    io::write_all(1, cases::piece(line, b':', 0));
    io::write_all(1, b"\n");
    for n in first..=last {
        print_counts(n, compare_drawers(n, plan));
    }
}

fn show(line: &[u8]) {
    if b'9' < cases::first_byte(line) {
        return show_drawers(line);
    }
    shown::show(line);
}

fn main() {
    // drawers against the book, then single walks, then refused openings
    cases::each(
        b"limit of ones, plenty allowed: 1 14 ones 0 0\n\
          every 257th limit, plenty allowed: 9 14 zeros 256 0\n\
          all limits, plenty allowed: 1 8 zeros 0 0\n\
          all limits, always 1 allowed: 1 8 zeros 0 1\n\
          all limits, always 2 allowed: 1 8 zeros 0 2\n\
          all limits, always 3 allowed: 1 8 zeros 0 3\n\
          all limits, 0, 1, 2, 3 in turn allowed: 1 8 zeros 0 4\n\
          all limits, 0 three times, then plenty allowed: 1 8 zeros 0 5\n\
          6 3 1 111111\n\
          8 3 1 11111111\n\
          8 3 1 00011000\n\
          8 3 1 00100100\n\
          8 3 1 00000110\n\
          4 2 2 0101\n\
          2 0 2 11\n\
          1 0 2 0\n\
          1 1 2 1\n\
          6 3 3 111111\n\
          6 3 3 001101\n\
          6 3 3 001011\n\
          12 6 3 001101011010\n\
          1 0 3 1\n\
          1 1 3 1\n\
          8 0 1 00000000\n\
          64 0 1 1111111111111111111111111111111111111111111111111111111111111111\n\
          64 1 2 1111111111111111111111111111111111111111111111111111111111111111\n\
          64 2 2 0000000000000000000000000000000100000000000000000000000000000001\n\
          64 63 1 1000000000000000000000000000000000000000000000000000000000000000\n\
          64 64 1 1111111111111111111111111111111111111111111111111111111111111111\n\
          64 64 2 1111111111111111111111111111111111111111111111111111111111111111\n\
          64 2 3 0000000000000000000000000000001000000000000000000000000000000001\n\
          64 64 3 1111111111111111111111111111111111111111111111111111111111111111\n\
          0 0 1 \n\
          65 0 1 \n\
          65 0 1 00000000000000000000000000000000000000000000000000000000000000000\n\
          0 1 4 2\n\
          65 66 4 2\n\
          4 5 1 0000\n\
          4 5 4 00002\n\
          4 3 0 1111\n\
          4 3 4 1111\n\
          4 3 255 00022\n\
          4 3 1 111\n\
          4 3 1 11111\n\
          4 3 1 \n\
          4 3 2 11112\n\
          4 3 1 0200\n\
          4 3 2 0232\n\
          4 3 3 1112\n",
        b'\n',
        show,
    );
}
