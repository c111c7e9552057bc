// The drawer's book by a plain listing. A row of n stations is a number, the first symbol its highest binary digit.
ghost use Rattle.std.specs.Prelude.{◌<◌, ◌≤◌, ◌*◌, IfSome};

use refusal::Refusal;
use test_rows::Drawer;
use walk::Answer;

// A drawer of up to 14 stations; half of the rows of so many stations.
#[derive(Clone, Copy)]
pub struct Shelf {
    pub drawer: Drawer,
    pub half: usize,
    ghost few_stations: { drawer.n ≤ 14 },
    ghost half_of_all: { (1 ≤ half) × (half ≤ 8192) },
}

// A row of as many stations.
#[derive(Clone, Copy)]
pub struct Row {
    pub shelf: Shelf,
    pub number: usize,
    ghost in_shelf: { number < 2 * shelf.half },
}

// What is to come: a line, none, or nothing any more.
#[derive(Clone, Copy, PartialEq, Eq)]
pub enum Next {
    Line,
    None,
    Over,
}

// What is next in the book of a drawer: the line, a row of zeros where it is none, the number of the row it is
// measured from, and the trials owed to it. A line is measured from the one given before it, the first from the limit.
#[derive(Clone, Copy)]
pub struct Book {
    pub next: Next,
    pub row: Row,
    pub kept: usize,
    pub owed: u64,
}

// The last symbol of a line isn't counted.
fn is_counted(rest: usize, i: usize, line: bool) -> bool {
    if rest % 2 == 0 {
        return false;
    }
    if line { 0 < i } else { true }
}

// The holes that are counted among the last k symbols.
fn holes(x: usize, k: usize, line: bool) -> usize
    requires { k ≤ 14 }
    ensures { result ≤ 14 }
{
    let mut rest = x;
    let mut count: usize = 0;
    for i in 0..k {
        count += usize::from(is_counted(rest, i, line));
        rest /= 2;
    }
    count
}

// How many symbols there are from the first that differs to the end.
fn differing(n: usize, x: usize, y: usize) -> usize
    ensures { result ≤ n }
{
    let mut a = x;
    let mut b = y;
    for k in 0..n {
        if a == b {
            return k;
        }
        a /= 2;
        b /= 2;
    }
    n
}

// The price of the line y after x.
fn price(n: usize, x: usize, y: usize, line: bool) -> usize
    requires { n ≤ 14 }
    ensures { result ≤ 28 }
{
    let k = differing(n, x, y);
    if k == 0 {
        return 0;
    }
    holes(x, k, line) + (k - 1)
}

impl Shelf {
    pub fn new(drawer: Drawer) -> Shelf
        requires { drawer.n ≤ 14 }
    {
        let half = if drawer.n == 0 {
            1
        } else {
            1usize << (drawer.n - 1)
        };
        Shelf { drawer, half }
    }

    // The row of the last n binary digits of a number.
    pub fn row(self, number: usize) -> Row {
        Row {
            shelf: self,
            number: number % (2 * self.half),
        }
    }

    // The book of the drawer, at or below the limit with a number.
    pub fn opened(self, number: usize) -> Book {
        let limit = self.row(number);
        if !limit.is_shelved() {
            return limit.after(false);
        }
        if limit.is_of_kind() {
            return Book {
                next: Next::Line,
                row: limit,
                kept: limit.number,
                owed: 0,
            };
        }
        limit.after(true)
    }

    // The book when nothing is to come.
    pub fn ended(self) -> Book {
        Book {
            next: Next::Over,
            row: self.row(0),
            kept: 0,
            owed: 0,
        }
    }
}

impl Row {
    // The row read from its second place on, then its first symbol.
    fn turned(self) -> Row {
        let half = self.shelf.half;
        let number = if self.number < half {
            2 * self.number
        } else {
            2 * (self.number - half) + 1
        };
        Row {
            shelf: self.shelf,
            number,
        }
    }

    // 0 not shelved, 1 shelved, 2 also without symmetry.
    fn class(self) -> u8 {
        let mut class: u8 = 2;
        let mut turn = self;
        for _ in 1..self.shelf.drawer.n {
            turn = turn.turned();
            if turn.number < self.number {
                return 0;
            }
            if turn.number == self.number {
                class = 1;
            }
        }
        class
    }

    // The row read from its last place to its first.
    fn reversed(self) -> Row {
        let mut back = self.shelf.row(0);
        let mut rest = self.number;
        for _ in 0..self.shelf.drawer.n {
            back = self.shelf.row(2 * back.number + rest % 2);
            rest /= 2;
        }
        back
    }

    // Whether the row is at or below all turns of its reverse.
    fn is_lowest_turned(self) -> bool {
        let mut turn = self.reversed();
        for _ in 0..self.shelf.drawer.n {
            if turn.number < self.number {
                return false;
            }
            turn = turn.turned();
        }
        true
    }

    // Whether a shelved row is of the kind.
    fn is_of_kind(self) -> bool {
        let kind = self.shelf.drawer.kind;
        if kind == 3 {
            return self.is_lowest_turned();
        }
        kind <= self.class()
    }

    // Whether the row is one of the drawer.
    fn is_shelved(self) -> bool {
        let drawer = self.shelf.drawer;
        holes(self.number, drawer.n, false) == drawer.d && self.class() != 0
    }

    // The drawer's highest row below this one.
    fn highest_below(self) -> Option<Row>
        ensures { IfSome result (λ below. below.number < self.number) }
    {
        for number in (0..self.number).rev() {
            let below = Row {
                shelf: self.shelf,
                number,
            };
            if below.is_shelved() {
                return Some(below);
            }
        }
        None
    }

    // The book after this row, a line or a limit that is none: lines of another kind are struck out, their price is owed
    // to what follows.
    fn after(self, line: bool) -> Book {
        let n = self.shelf.drawer.n;
        let mut last = self;
        let mut is_line = line;
        let mut owed: u64 = 0;
        while let Some(below) = last.highest_below() {
            owed += price(n, last.number, below.number, is_line) as u64;
            last = below;
            is_line = true;
            if last.is_of_kind() {
                return Book {
                    next: Next::Line,
                    row: last,
                    kept: self.number,
                    owed,
                };
            }
        }
        owed += holes(last.number, n, is_line) as u64;
        Book {
            next: Next::None,
            row: self.shelf.row(0),
            kept: self.number,
            owed,
        }
    }
}

impl Book {
    // What the book says to a step.
    pub fn says(self, allowance: u64) -> Result<Answer, Refusal> {
        if self.next == Next::Over {
            return Err(Refusal::Ended);
        }
        if allowance < self.owed {
            return Err(Refusal::Spent);
        }
        if self.next == Next::None {
            return Ok(Answer::None);
        }
        Ok(Answer::Ring)
    }

    // The trials of a step.
    pub fn trials(self, allowance: u64) -> u64 {
        self.owed.min(allowance)
    }

    // The place that a step carries.
    pub fn place(self, allowance: u64) -> usize {
        if self.says(allowance) != Ok(Answer::Ring) {
            return 0;
        }
        let n = self.row.shelf.drawer.n;
        let k = differing(n, self.kept, self.row.number);
        if k == 0 {
            return 0;
        }
        n - k + 1
    }

    // The book after a step.
    pub fn stepped(self, allowance: u64) -> Book {
        if allowance < self.owed {
            return Book {
                owed: self.owed - allowance,
                ..self
            };
        }
        if self.next == Next::Line {
            return self.row.after(true);
        }
        self.row.shelf.ended()
    }
}
