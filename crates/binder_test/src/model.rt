// The plain model: the log of the puts accepted, looked through from the last to the first, and the book of each walk.
use test_rows::Drawer;
use test_walks::book::{Book, Shelf};
use walk::{Stepped, Walk};

// The most puts of a list.
pub const PUTS: usize = 50;

// A walk, with its book as it stands. The book of a record at random isn't known.
#[derive(Clone, Copy)]
pub struct Stand {
    pub walk: Walk,
    pub book: Option<Book>,
}

// A put that was accepted.
#[derive(Clone, Copy)]
pub struct Entry {
    pub name: usize,
    pub stand: Stand,
}

// The puts so far.
#[derive(Clone, Copy)]
pub struct Log {
    pub entries: [Entry; PUTS],
    pub size: usize,
}

// The book of a walk that has ended.
pub fn over() -> Book {
    let drawer = Drawer {
        n: 1,
        d: 0,
        kind: 1,
    };
    Shelf::new(drawer).ended()
}

// No put: the walk of a refused opening.
pub fn no_put() -> Stand {
    Stand {
        walk: Walk::refused(),
        book: Some(over()),
    }
}

impl Log {
    pub fn new() -> Log {
        let entry = Entry {
            name: 0,
            stand: no_put(),
        };
        Log {
            entries: [entry; PUTS],
            size: 0,
        }
    }

    pub fn with(self, entry: Entry) -> Log {
        let mut entries = self.entries;
        let size = self.size;
        if PUTS <= size {
            return self;
        }
        entries[size] = entry;
        Log {
            entries,
            size: size + 1,
        }
    }

    // The last put under a name.
    pub fn last(&self, name: usize) -> Option<Stand> {
        let entries = self.entries.get(..self.size)?;
        let last = entries.iter().rev().find(|entry| entry.name == name)?;
        Some(last.stand)
    }
}

// Whether the walk's row is the book's, after a ring or none.
fn is_lined(book: Book, told: Stepped) -> bool {
    told.answer.is_err()
        || told.walk.row == test_rows::row_of_number(book.row.shelf.drawer.n, book.row.number)
}

// How much of what a step says is not by the book, where it is known.
pub fn differing(book: Option<Book>, allowance: u64, told: Stepped) -> usize {
    let Some(book) = book else {
        return 0;
    };
    usize::from(told.answer != book.says(allowance))
        + usize::from(told.trials != book.trials(allowance))
        + usize::from(told.place != book.place(allowance))
        + usize::from(!is_lined(book, told))
}
