// Openings, steps, looks, takes, puts and fetches, each compared with the model.
ghost use Rattle.std.specs.Prelude.{◌<◌};

use crate::counts::{Counts, Done};
use crate::model::{Entry, Log, Stand};
use crate::offered::Made;
use crate::{compared, counts, model, offered};
use binder::Binder;
use test_calls::Call;
use test_rows::{Drawer, cases};
use test_walks::book::{Book, Shelf};
use test_walks::random;
use walk::Walk;

// How many offers are held, the newest first.
pub const OFFERS: usize = 4;

// The walk that stands, with its book; the offers held; the binder and the log of its puts; and what was counted.
#[derive(Clone, Copy)]
pub struct Held {
    pub stand: Stand,
    pub offers: [Made; OFFERS],
    pub binder: Binder,
    pub log: Log,
    pub counts: Counts,
}

// A drawer of 1 to 8 stations, more often 8, at any limit.
pub fn opened(index: usize) -> Stand {
    let n = 8 - random::drawn(index, 2, 1 + random::drawn(index, 7, 8));
    let drawer = Drawer {
        n,
        d: random::drawn(index, 3, n + 1),
        kind: (1 + random::drawn(index, 4, 3)) as u8,
    };
    let shelf = Shelf::new(drawer);
    let limit = random::drawn(index, 5, 2 * shelf.half);
    let row = test_rows::row_of_number(n, limit);
    let opened = test_walks::open(drawer, cases::part(&row, 0, n));
    Stand {
        walk: opened.walk,
        book: Some(shelf.opened(limit)),
    }
}

fn stepped(book: Option<Book>, allowance: u64) -> Option<Book> {
    book.map(|book| book.stepped(allowance))
}

impl Held {
    // Nothing opened, looked at or put.
    pub fn new(counts: Counts) -> Held {
        Held {
            stand: model::no_put(),
            offers: [offered::no_look(); OFFERS],
            binder: Binder::fresh(),
            log: Log::new(),
            counts,
        }
    }

    pub fn opens(self, stand: Stand) -> Held {
        Held {
            stand,
            counts: counts::counted(self.counts, Ok(Done::Opened), Call::default()),
            ..self
        }
    }

    pub fn steps(self, allowance: u64) -> Held {
        let book = self.stand.book;
        let told = self.stand.walk.step(allowance);
        let differing = model::differing(book, allowance, told);
        let said = told.answer.map(Done::Stepped);
        Held {
            stand: Stand {
                walk: told.walk,
                book: stepped(book, allowance),
            },
            counts: counts::counted(self.counts, said, Call::told(told, differing)),
            ..self
        }
    }

    // Looks at the walk that stands, and holds the offer; the oldest is let go.
    pub fn looks(self, allowance: u64) -> Held {
        let book = self.stand.book;
        let before = self.stand.walk;
        let looked = offers::look(before, allowance);
        let due = offered::step_due(book, before, allowance);
        let differing = test_calls::look_differing(before, allowance, looked, due);
        let said = looked.answer.map(|_| Done::Looked);
        let [first, second, third, _] = self.offers;
        Held {
            stand: Stand {
                walk: looked.walk,
                book,
            },
            offers: [offered::made_by(book, looked), first, second, third],
            counts: counts::counted(self.counts, said, Call::looked(looked, differing)),
            ..self
        }
    }

    // Takes an offer that is held, on the walk that stands now.
    pub fn takes(self, age: usize) -> Held
        requires { age < 4 }
    {
        let before = self.stand.book;
        let made = self.offers[age];
        let due = offered::take_due(before, self.stand.walk, made);
        let told = offers::take(self.stand.walk, made.offer);
        let differing = test_calls::differing(told, due);
        let said = told.answer.map(|_| Done::Taken);
        let book = match due.answer {
            Ok(_) => stepped(before, made.offer.allowance),
            Err(_) => before,
        };
        Held {
            stand: Stand {
                walk: told.walk,
                book,
            },
            counts: counts::counted(self.counts, said, Call::told(told, differing)),
            ..self
        }
    }

    pub fn puts(self, name: usize, stand: Stand) -> Held {
        let walk = stand.walk;
        let filed = self.binder.put(name, walk);
        let due = compared::put_due(name, walk);
        let put = due.ok().map(|_| (name, walk));
        let misfiled = compared::misfiled(self.binder, filed.binder, put);
        let differing = test_walks::plus(misfiled, usize::from(filed.answer != due));
        let said = filed.answer.map(|_| Done::Put);
        let call = Call {
            differing,
            ..Call::default()
        };
        let log = match due {
            Ok(_) => self.log.with(Entry { name, stand }),
            Err(_) => self.log,
        };
        Held {
            binder: filed.binder,
            log,
            counts: counts::counted(self.counts, said, call),
            ..self
        }
    }

    pub fn puts_record(self, name: usize, index: usize) -> Held {
        let walk = random::record(index);
        self.puts(name, Stand { walk, book: None })
    }

    pub fn fetches(self, name: usize) -> Held {
        let fetched = self.binder.fetch(name);
        let last = self.log.last(name);
        let due = last.unwrap_or(model::no_put());
        let said = fetched.answer.map(|_| Done::Fetched);
        let wrong = fetched.answer != compared::fetch_due(name, last.is_some());
        let call = Call {
            rows: test_walks::rows_of(fetched.walk),
            differing: usize::from(wrong)
                + usize::from(!walk_records::same_walk(fetched.walk, due.walk)),
            ..Call::default()
        };
        Held {
            stand: Stand {
                walk: fetched.walk,
                book: due.book,
            },
            counts: counts::counted(self.counts, said, call),
            ..self
        }
    }
}
