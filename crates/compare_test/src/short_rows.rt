// All pairs of rows of up to 7 symbols, the empty row with them.
use crate::plain::Tally;
use test_rows::cases;

// The rows are numbered: a binary 1 and then the symbols.
pub fn compare_all() {
    let mut tally = Tally::default();
    for pair in 0..65025 {
        let number = 1 + pair / 255;
        let other_number = 1 + pair % 255;
        let n = test_rows::stations(number);
        let other_n = test_rows::stations(other_number);
        let row = test_rows::row_of_number(n, number);
        let other = test_rows::row_of_number(other_n, other_number);
        tally = tally.with(cases::part(&row, 0, n), cases::part(&other, 0, other_n));
    }
    io::write_all(1, b"rows of up to 7 symbols: ");
    tally.print(65025);
}
