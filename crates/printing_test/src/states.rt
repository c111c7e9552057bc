// States that no start hands out.
use printing::{Due, Printing};
use walk::{Standing, Walk};

// A text in the midst of its lines, with a walk of (n, 0).
fn amid(n: usize, at: Standing, number: u64) -> Printing {
    let row = [0u8; refusal::MOST_STATIONS];
    let walk = Walk {
        n,
        d: 0,
        kind: 1,
        row,
        at,
        kept: row,
    };
    Printing {
        walk,
        number,
        due: Due::Rings,
    }
}

// An unfit walk, an ended one, one whose ring has no number left, and one whose ring has the last.
pub fn state(i: usize) -> Printing {
    match i {
        0 => amid(65, Standing::Limit, 0),
        1 => amid(1, Standing::Ended, 0),
        2 => amid(1, Standing::Limit, u64::MAX),
        _ => amid(1, Standing::Limit, u64::MAX - 1),
    }
}
