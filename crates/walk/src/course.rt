// The parts of a step. Each hands back where it has come to, and the step goes on from there.
ghost use Rattle.std.specs.Prelude.{◌≡◌, ◌+◌, ◌-◌, take};
ghost use Rattle.prefix.specs.InnerCarried.{Knows, KnowsPrefixes};
ghost use Rattle.walk.specs.Moves.{row_of, rules, gone_below};
ghost use Rattle.walk.specs.InnerCourse.{Good, Informed, Resumes};

use crate::{Answer, Reached, Standing, Walk};
use prefix::carried::{Known, Prefixes};
use refusal::Refusal;

impl Walk {
    // From where the walk stands to an answer, or to a ring of another kind.
    pub fn go_on(self, prefixes: &Prefixes, known: Known, left: u64) -> Reached
        requires { Informed self prefixes.now known }
        ensures { Resumes self left result }
    {
        let row = self.row;
        let at = self.at;
        match at {
            Standing::Limit => self.from_limit(prefixes, known, left),
            Standing::Down(p) => self.descend(p, prefixes, known, left),
            Standing::Up(p) => self.ascend(p, known, left),
            Standing::Given => self.from_given(prefixes, known, left),
            Standing::Ended => Reached {
                row,
                at,
                left,
                said: Some(Err(Refusal::Ended)),
            },
        }
    }

    // The limit is found, or looked below.
    fn from_limit(self, prefixes: &Prefixes, known: Known, left: u64) -> Reached
        requires { (self.at ≡ Standing.Limit) × Good rules self × KnowsPrefixes (row_of self) prefixes.now × Knows (row_of self) known }
        ensures { Resumes self left result }
    {
        let n = self.n;
        let d = self.d;
        let row = self.row;
        if known.is_necklace_of(d, &row[..n]) {
            let beyond = n + 1;
            let walk = Walk {
                at: Standing::Up(beyond),
                ..self
            };
            return walk.found(&row[..n], known, left);
        }
        let before = known.shorter(prefixes, &row[..n]);
        let walk = Walk {
            at: Standing::Down(n),
            ..self
        };
        walk.descend(n, prefixes, before, left)
    }

    // Going on below.
    fn below(self) -> Walk
        requires { Good rules self }
        ensures { result ≡ gone_below self.d self }
    {
        let n = self.n;
        let d = self.d;
        let mut row = self.row;
        if d == 0 {
            return Walk {
                at: Standing::Down(0),
                ..self
            };
        }
        row[n - 1] = 0;
        Walk {
            row,
            at: Standing::Down(n),
            ..self
        }
    }

    // From Given: below the ring.
    fn from_given(self, prefixes: &Prefixes, known: Known, left: u64) -> Reached
        requires { (self.at ≡ Standing.Given) × Good rules self × KnowsPrefixes (row_of self) prefixes.now × Knows (row_of self) known }
        ensures { Resumes self left result }
    {
        let n = self.n;
        let d = self.d;
        let row = self.row;
        let walk = self.below();
        if d == 0 {
            return walk.none(left);
        }
        let before = known.shorter(prefixes, &row[..n]);
        walk.descend(n, prefixes, before, left)
    }

    // From Down p: down to the first yes and up from there, or to none. The symbols before place p are known.
    fn descend(self, from: usize, prefixes: &Prefixes, first: Known, allowed: u64) -> Reached
        requires { (self.at ≡ Standing.Down from) × Good rules self × KnowsPrefixes (take (from - 1) self.row) prefixes.now × Knows (take (from - 1) self.row) first }
        ensures { Resumes self allowed result }
    {
        let n = self.n;
        let d = self.d;
        let mut row = self.row;
        let mut left = allowed;
        let mut known = first;
        for q in (0..from).rev() {
            if row[q] != 0 {
                let p = q + 1;
                if left == 0 {
                    return Reached {
                        row,
                        at: Standing::Down(p),
                        left,
                        said: Some(Err(Refusal::Spent)),
                    };
                }
                left -= 1;
                row[q] = 0;
                let tried = known.longer(&row[..p]);
                if tried.ask(n, d, row, p) {
                    let walk = Walk {
                        row,
                        at: Standing::Up(p + 1),
                        ..self
                    };
                    return walk.ascend(p + 1, tried, left);
                }
                row[q] = 1;
            }
            known = known.shorter(prefixes, &row[..q]);
        }
        let walk = Walk {
            row,
            at: Standing::Down(0),
            ..self
        };
        walk.none(left)
    }

    // From Up p: up to a row that is found. The symbols before place p are known.
    fn ascend(self, from: usize, first: Known, allowed: u64) -> Reached
        requires { (self.at ≡ Standing.Up from) × Good rules self × Knows (take (from - 1) self.row) first }
        ensures { Resumes self allowed result }
    {
        let n = self.n;
        let d = self.d;
        let mut row = self.row;
        let mut left = allowed;
        let mut known = first;
        // over places; by indices it was tried, slower
        for p in from..n + 1 {
            let i = p - 1;
            if left == 0 {
                return Reached {
                    row,
                    at: Standing::Up(p),
                    left,
                    said: Some(Err(Refusal::Spent)),
                };
            }
            left -= 1;
            row[i] = 1;
            if !known.ask_with_one(n, d, &row[..p]) {
                row[i] = 0;
            }
            known = known.longer(&row[..p]);
        }
        let walk = Walk {
            row,
            at: Standing::Up(n + 1),
            ..self
        };
        walk.found(&row[..n], known, left)
    }

    // A row is found: the answer, if it is of the kind. Its n symbols are lent, and known.
    fn found(self, a: &[u8], known: Known, left: u64) -> Reached
        requires { (self.at ≡ Standing.Up (self.n + 1)) × Good rules self × (a.now ≡ row_of self) × Knows (row_of self) known }
        ensures { Resumes self left result }
    {
        let kind = self.kind;
        let row = self.row;
        if known.is_of_kind(kind, a) {
            return Reached {
                row,
                at: Standing::Given,
                left,
                said: Some(Ok(Answer::Ring)),
            };
        }
        Reached {
            row,
            at: Standing::Given,
            left,
            said: None,
        }
    }

    // None: the row becomes zeros, the walk is Ended.
    fn none(self, left: u64) -> Reached
        requires { (self.at ≡ Standing.Down 0) × Good rules self }
        ensures { Resumes self left result }
    {
        Reached {
            row: [0u8; refusal::MOST_STATIONS],
            at: Standing::Ended,
            left,
            said: Some(Ok(Answer::None)),
        }
    }
}
