// The drawer program's text, printed plainly: numbers by the kit's digits, rings by a plain listing.
use test_rows::{Drawer, cases};
use test_texts::Text;
use test_walks::book::{Book, Next, Shelf};

// A refusal's text.
pub fn add_refusal(text: &mut Text, number: usize, place: usize) {
    text.fill(b"refused place\n# #\n", &[number, place], b"");
}

// A ring's line, or the last.
fn add_line(text: &mut Text, number: usize, book: Book) {
    let owed = book.owed as usize;
    if book.next == Next::None {
        return text.fill(b"end - - #\n", &[owed], b"");
    }
    let n = book.row.shelf.drawer.n;
    let row = test_rows::row_of_number(n, book.row.number);
    let digits = test_rows::digits_of_number(n, book.row.number);
    let period = test_rows::period(cases::part(&row, 0, n));
    text.fill(
        b"# @ # #\n",
        &[number, period, owed],
        cases::part(&digits, 0, n),
    );
}

// The names, the lines of the book of a drawer of up to 14 stations, and its end.
pub fn add_drawer(text: &mut Text, drawer: Drawer, limit: usize) {
    if 14 < drawer.n {
        return;
    }
    text.append(b"number row period trials\n");
    let mut book = Shelf::new(drawer).opened(limit);
    for number in 1..1000 {
        add_line(text, number, book);
        if book.next == Next::None {
            return;
        }
        book = book.stepped(100000);
    }
}
