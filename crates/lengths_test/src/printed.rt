// The lines of printed drawers, against the length.
use crate::asked;
use printing::Printing;
use test_rows::drawers::Tally;
use test_rows::{Drawer, cases};
use test_texts::Text;

// How many line feeds the text of an input has, if it ends.
fn lines(input: &[u8]) -> Option<usize> {
    let mut state = Printing::start(input);
    let mut lines: usize = 0;
    for _ in 0..1000 {
        let mut out = [0u8; 1024];
        let filled = state.fill(&mut out);
        let piece = cases::part(&out, 0, filled.used);
        lines = lines.wrapping_add(test_rows::count(piece, b'\n'));
        if filled.done {
            return Some(lines);
        }
        state = filled.state;
    }
    None
}

// A line for each ring, the names and the last. Summed: the lines.
pub fn compare(drawer: Drawer, limit: usize) -> Tally {
    let digits = test_rows::digits_of_number(drawer.n, limit);
    let mut input = Text::new();
    input.add_input(
        drawer.n,
        drawer.d,
        usize::from(drawer.kind),
        cases::part(&digits, 0, drawer.n),
    );
    let Some(lines) = lines(input.as_slice()) else {
        return Tally::default().with(false, 0);
    };
    let row = test_rows::row_of_number(drawer.n, limit);
    let told = asked::length(drawer, cases::part(&row, 0, drawer.n));
    let rings = lines.wrapping_sub(2);
    Tally::default().with(asked::covers(told, drawer.kind, rings), lines)
}
