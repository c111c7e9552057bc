// A binder: walks kept under names 0 to 7, by value.
#![tactic(auto)]

ghost use Rattle.std.specs.Prelude.{◌≡◌, ◌≤◌};
ghost use Rattle.refusal.specs.Outcomes.{decide};
ghost use Rattle.walk.specs.Fit.{fit};
ghost use Rattle.walk.specs.Moves.{rules};
ghost use Rattle.binder.specs.InnerAnswers.{refused_fetch, refused_put};
ghost use Rattle.binder.specs.Names.{fetch_of, fetch_verdict, fresh_binder, put_of, put_verdict};

use refusal::Refusal;
use walk::Walk;

// How many names there are.
pub const NAMES: usize = 8;

// A binder, taken in and handed back by each put: under each name a walk, if one was put.
#[derive(Clone, Copy)]
pub struct Binder {
    pub bookmarks: [Option<Walk>; NAMES],
}

// What a put hands back.
#[derive(Clone, Copy)]
pub struct Filed {
    pub binder: Binder,
    pub answer: Result<(), Refusal>,
}

// What a fetch hands back: a refused one, a walk too.
#[derive(Clone, Copy)]
pub struct Fetched {
    pub walk: Walk,
    pub answer: Result<(), Refusal>,
}

// Whether a walk record is fit: a step that is allowed no trial is refused with 22 exactly where it isn't.
fn is_fit(walk: Walk) -> bool
    ensures { result ≡ fit rules walk }
{
    let stepped = walk.step(0);
    // by matches: `!=` of two Results was tried, and its proof goes through every case of a refusal
    match stepped.answer {
        Ok(_) => true,
        Err(r) => match r {
            Refusal::Unfit => false,
            _ => true,
        },
    }
}

// A fetch that is refused.
fn no_walk(r: Refusal) -> Fetched
    ensures { result ≡ refused_fetch r }
{
    Fetched {
        walk: Walk::refused(),
        answer: Err(r),
    }
}

impl Binder {
    // A binder with nothing put.
    pub fn fresh() -> Binder
        ensures { result ≡ fresh_binder }
    {
        Binder {
            bookmarks: [None; NAMES],
        }
    }

    // A put that is refused.
    fn unchanged(self, r: Refusal) -> Filed
        ensures { result ≡ refused_put self r }
    {
        Filed {
            binder: self,
            answer: Err(r),
        }
    }

    // Puts a walk under a name, in place of what was there.
    pub fn put(self, name: usize, walk: Walk) -> Filed
        ensures answer { result.answer ≡ decide (put_verdict name walk) tt }
        ensures binder { result.binder ≡ put_of self name walk }
    {
        if NAMES <= name {
            return self.unchanged(Refusal::Name);
        }
        if !is_fit(walk) {
            return self.unchanged(Refusal::Unfit);
        }
        let mut bookmarks = self.bookmarks;
        bookmarks[name] = Some(walk);
        Filed {
            binder: Binder { bookmarks },
            answer: Ok(()),
        }
    }

    // The walk that stands under a name.
    pub fn fetch(self, name: usize) -> Fetched
        ensures answer { result.answer ≡ decide (fetch_verdict self name) tt }
        ensures walk { result.walk ≡ fetch_of self name }
    {
        if NAMES <= name {
            return no_walk(Refusal::Name);
        }
        match self.bookmarks[name] {
            Some(walk) => Fetched {
                walk,
                answer: Ok(()),
            },
            None => no_walk(Refusal::NothingPut),
        }
    }
}
