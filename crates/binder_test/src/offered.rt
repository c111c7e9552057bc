// Looks and takes, compared with what is due: by the book where it is known, else as a step does.
use crate::model;
use offers::{Looked, Offer};
use test_walks::book::{Book, Next};
use walk::{Standing, Stepped, Walk};

// An offer that was made, and the book whose next line, or none, it offers.
#[derive(Clone, Copy)]
pub struct Made {
    pub offer: Offer,
    pub book: Option<Book>,
}

// No look made: the offer of a refused one, which is none of drawer (1, 0).
pub fn no_look() -> Made {
    Made {
        offer: Offer::refused(),
        book: Some(model::over()),
    }
}

// The offer of a look, kept with the book; where the look is refused, it offers as no look does.
pub fn made_by(book: Option<Book>, looked: Looked) -> Made {
    let book = match looked.answer {
        Ok(_) => book,
        Err(_) => Some(model::over()),
    };
    Made {
        offer: looked.offer,
        book,
    }
}

// ---- what is due

// The walk that the next line, or none, leaves.
fn lined(book: Book) -> Walk {
    let drawer = book.row.shelf.drawer;
    let row = test_rows::row_of_number(drawer.n, book.row.number);
    Walk {
        n: drawer.n,
        d: drawer.d,
        kind: drawer.kind,
        row,
        at: if book.next == Next::Line {
            Standing::Given
        } else {
            Standing::Ended
        },
        kept: row,
    }
}

// What a step is due to say, with the walk that a ring or none leaves.
pub fn step_due(book: Option<Book>, before: Walk, allowance: u64) -> Stepped {
    match book {
        Some(book) => Stepped {
            walk: lined(book),
            answer: book.says(allowance),
            place: book.place(allowance),
            trials: book.trials(allowance),
        },
        None => before.step(allowance),
    }
}

// Whether the same line, or none, of the same drawer is next in two books.
fn same_next(book: Book, other: Book) -> bool {
    book.row.shelf.drawer == other.row.shelf.drawer
        && (book.next == Next::Line) == (other.next == Next::Line)
        && book.row.number == other.row.number
}

// Whether what a step is due to give is what was offered: by the books where both are known.
fn is_offered(book: Option<Book>, due: Stepped, made: Made) -> bool {
    match (book, made.book) {
        (Some(book), Some(other)) => same_next(book, other),
        _ => test_calls::same_offer(test_calls::offer_due(due, made.offer.allowance), made.offer),
    }
}

// What a take is due to say and to leave.
pub fn take_due(book: Option<Book>, before: Walk, made: Made) -> Stepped {
    let due = step_due(book, before, made.offer.allowance);
    test_calls::take_due(before, due, is_offered(book, due, made))
}
