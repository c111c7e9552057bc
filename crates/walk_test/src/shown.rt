// Walks and refused openings, printed.
use refusal::Refusal;
use test_rows::cases;
use walk::{Answer, Standing, Walk};

fn print_line(number: usize, w: Walk, place: usize, trials: usize) {
    test_rows::print_filled(b"# ", &[number]);
    test_rows::print_row(w.n, &w.row);
    test_rows::print_filled(b" place # trials #\n", &[place, trials]);
}

// All rings with their places and trials, then none with its own. A walk with plenty allowed is refused nothing before
// that.
fn print_rings(opened: Walk) {
    let mut w = opened;
    for number in 1..1000 {
        let step = w.step(1000);
        let trials = step.trials as usize;
        w = step.walk;
        match step.answer {
            Ok(Answer::Ring) => print_line(number, w, step.place, trials),
            Ok(Answer::None) => {
                return test_rows::print_filled(b"end place # trials #\n", &[step.place, trials]);
            }
            Err(_) => return,
        }
    }
}

// A refused opening hands back the ended walk of (1, 0), kind 1.
fn print_refused(r: Refusal, w: Walk) {
    let row = [0u8; refusal::MOST_STATIONS];
    let none = Walk {
        n: 1,
        d: 0,
        kind: 1,
        row,
        at: Standing::Ended,
        kept: row,
    };
    test_rows::print_refusal(r);
    io::write_all(1, b" ended walk of (1,0):");
    test_walks::print_truth(walk_records::same_walk(w, none));
}

// A line is stations, holes, kind, and the limit as digits.
pub fn show(line: &[u8]) {
    let drawer = cases::drawer(line, 0);
    let digits = cases::word(line, 3);
    let row = cases::symbols(digits);
    let opened = test_walks::open(drawer, cases::part(&row, 0, digits.len()));
    test_rows::print_filled(
        b"(#,#) kind # limit ",
        &[drawer.n, drawer.d, usize::from(drawer.kind)],
    );
    io::write_all(1, digits);
    io::write_all(1, b"\n");
    match opened.answer {
        Ok(_) => print_rings(opened.walk),
        Err(r) => print_refused(r, opened.walk),
    }
}
