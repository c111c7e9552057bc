// A walk of the necklaces of (n, d), held by value: opened at a limit, stepped with an allowance of trials.
#![tactic(auto)]

mod course;

ghost use Rattle.std.specs.Prelude.{◌≡◌, ◌-◌, take};
ghost use Rattle.prefix.specs.InnerCarried.{Knows};
ghost use Rattle.walk.specs.Moves.{row_of, rules};
ghost use Rattle.walk.specs.Fit.{fit_sizes, fit_at};
ghost use Rattle.walk.specs.Step.{step_due, step_numbers, step_of, stepped};
ghost use Rattle.walk.specs.Opening.{open_verdict, open_walk, refused_walk};
ghost use Rattle.walk.specs.InnerCourse.{Fitting, before};
ghost use Rattle.refusal.specs.Outcomes.{decide};

use prefix::carried::Known;
use refusal::Refusal;

// Where a walk stands.
#[derive(Clone, Copy, PartialEq, Eq)]
pub enum Standing {
    Limit,
    Down(usize),
    Up(usize),
    Given,
    Ended,
}

// A walk: length, density, kind, the row, the standing, and the row kept, from which the next ring is measured: the limit, then the ring
// last given. It is taken in and handed back by each step. The kind is a number, as a record with any may be handed in (22); the rows are
// arrays with n beside them, as document 01 has the record, so that a walk is a plain value.
#[derive(Clone, Copy, PartialEq, Eq)]
pub struct Walk {
    pub n: usize,
    pub d: usize,
    pub kind: u8,
    pub row: [u8; refusal::MOST_STATIONS],
    pub at: Standing,
    pub kept: [u8; refusal::MOST_STATIONS],
}

// What a step answers. A ring is the walk's row.
#[derive(Clone, Copy, PartialEq, Eq)]
pub enum Answer {
    Ring,
    None,
}

// What a step hands back. The place is where a ring leaves the row that was kept; it is 0 where they are equal and where no ring is given.
#[derive(Clone, Copy)]
pub struct Stepped {
    pub walk: Walk,
    pub answer: Result<Answer, Refusal>,
    pub place: usize,
    pub trials: u64,
}

// What opening hands back: a refused one, a walk too.
#[derive(Clone, Copy)]
pub struct Opened {
    pub walk: Walk,
    pub answer: Result<(), Refusal>,
}

// Where a part of a step has brought a walk, with the trials left. What is said is the step's answer, if it has one.
#[derive(Clone, Copy)]
pub struct Reached {
    pub row: [u8; refusal::MOST_STATIONS],
    pub at: Standing,
    pub left: u64,
    pub said: Option<Result<Answer, Refusal>>,
}

impl Walk {
    // The walk that a refused opening hands back.
    pub fn refused() -> Walk
        ensures { result ≡ refused_walk rules }
    {
        let row = [0u8; refusal::MOST_STATIONS];
        Walk {
            n: 1,
            d: 0,
            kind: 1,
            row,
            at: Standing::Ended,
            kept: row,
        }
    }

    // Opens a walk of the necklaces of (n, d) of a kind, at or below a limit.
    pub fn open(n: usize, d: usize, kind: u8, limit: &[u8]) -> Opened
        ensures answer { result.answer ≡ decide (open_verdict n d kind limit.now) tt }
        ensures walk { result.walk ≡ open_walk (open_verdict n d kind limit.now) rules n d kind limit.now }
    {
        let answer = density::drawers::check_opening(n, d, kind, limit);
        if answer.is_err() {
            return Opened {
                walk: Walk::refused(),
                answer,
            };
        }
        let row = density::rows::padded(limit);
        let walk = Walk {
            n,
            d,
            kind,
            row,
            at: Standing::Limit,
            kept: row,
        };
        Opened { walk, answer }
    }

    // n, d and the kind are in range.
    fn fit_sizes(self) -> bool
        ensures { result ≡ fit_sizes rules self }
    {
        let n = self.n;
        let d = self.d;
        let kind = self.kind;
        let sized = refusal::are_stations(n) && d <= n;
        sized && density::kinds::is_kind(kind)
    }

    // The rows fit where the walk stands. The symbols before that place are known; `a` is the row's n symbols, `kept` the row kept.
    fn fit_at(self, a: &[u8], kept: &[u8], known: Known) -> bool
        requires { Fitting self × Knows (take (before self.at self.n) self.row) known × (a.now ≡ row_of self) × (kept.now ≡ self.kept) }
        ensures { result ≡ fit_at rules self.at self }
    {
        let n = self.n;
        let d = self.d;
        let kind = self.kind;
        let row = self.row;
        let at = self.at;
        match at {
            Standing::Limit => true,
            Standing::Down(p) => 1 <= p && p <= n,
            Standing::Up(p) => {
                let placed = 2 <= p && p <= n;
                placed && known.ask(n, d, row, p - 1)
            }
            Standing::Given => known.is_necklace_of(d, a) && known.is_of_kind(kind, a),
            Standing::Ended => density::rows::highest_of_two(&row, kept) == 0,
        }
    }

    // How many symbols lie before the place where the walk stands: all of them at Limit and Given, and no more than that.
    fn before(self) -> usize
        ensures { result ≡ before self.at self.n }
    {
        let n = self.n;
        let at = self.at;
        match at {
            Standing::Limit => n,
            Standing::Down(p) | Standing::Up(p) => p.saturating_sub(1).min(n),
            Standing::Given => n,
            Standing::Ended => 0,
        }
    }

    // Refusal 22.
    fn unfit(self) -> Stepped
        ensures { result ≡ stepped self (Err Refusal.Unfit) 0 }
    {
        Stepped {
            walk: self,
            answer: Err(Refusal::Unfit),
            place: 0,
            trials: 0,
        }
    }

    // A step: the next ring, none, or a refusal, with the trials that it made. An allowance of trials is counted down.
    pub fn step(self, allowance: u64) -> Stepped
        ensures answer { result ≡ step_of rules self allowance }
        ensures numbers { step_numbers result ≡ step_due rules self allowance }
    {
        if !self.fit_sizes() {
            return self.unfit();
        }
        let n = self.n;
        let kept = self.kept;
        let mut row = self.row;
        if !density::rows::are_padded(&row, &kept, n) {
            return self.unfit();
        }
        let mut at = self.at;
        let mut left = allowance;
        let mut prefixes = prefix::carried::prefixes_of(&row[..n]);
        let m = self.before();
        let mut known = Known::read(&prefixes, &row[..m]);
        if !self.fit_at(&row[..n], &kept, known) {
            return self.unfit();
        }
        loop {
            let walk = Walk { row, at, ..self };
            let reached = walk.go_on(&prefixes, known, left);
            row = reached.row;
            at = reached.at;
            left = reached.left;
            let trials = allowance - left;
            let said = reached.said;
            match said {
                // measured from the row kept, which it replaces
                Some(Ok(Answer::Ring)) => {
                    let compared = words::compare(&kept[..n], &row[..n]);
                    return Stepped {
                        walk: Walk {
                            row,
                            at,
                            kept: row,
                            ..self
                        },
                        answer: Ok(Answer::Ring),
                        place: compared.place,
                        trials,
                    };
                }
                Some(Ok(Answer::None)) => {
                    return Stepped {
                        walk: Walk {
                            row,
                            at,
                            kept: [0u8; refusal::MOST_STATIONS],
                            ..self
                        },
                        answer: Ok(Answer::None),
                        place: 0,
                        trials,
                    };
                }
                Some(Err(r)) => {
                    return Stepped {
                        walk: Walk {
                            row,
                            at,
                            kept,
                            ..self
                        },
                        answer: Err(r),
                        place: 0,
                        trials,
                    };
                }
                None => {}
            }
            // a ring of another kind was found
            prefixes = prefix::carried::prefixes_of(&row[..n]);
            known = Known::read(&prefixes, &row[..n]);
        }
    }
}
