// Lengths of drawers: single cases, all limits of short drawers against plain counting, walks and printed drawers
// against their lengths, and a grid of refusals.
#![tactic(auto)]

mod asked;
mod counted;
mod grid;
mod printed;
mod single;
mod walked;

use test_rows::drawers::Tally;
use test_rows::{Drawer, drawers};

// A drawer at many limits: all of them up to 7 stations, else 16. A limit is told by its last n binary digits: n ones
// first. The stride is odd, so that none comes twice.
fn at_limits<F: Fn(usize) -> Tally>(drawer: Drawer, compare: F) -> Tally
    requires { F.IsAlwaysCallable compare }
{
    let limits = if drawer.n < 8 { 1usize << drawer.n } else { 16 };
    let mut tally = Tally::default();
    for k in 0..limits {
        tally = tally.plus(compare(65535 + k % 128 * 2749));
    }
    tally
}

// Drawers of up to 12 or 14 stations, of each kind.
fn show_drawers() {
    drawers::show_all(
        b"all limits, kind #: compared # agreed # sum #\n",
        12,
        3,
        counted::compare,
    );
    drawers::show_all(
        b"walks, plenty allowed, kind #: compared # agreed # rings #\n",
        14,
        3,
        |drawer| at_limits(
            drawer,
            |limit| walked::compare(drawer, limit, walked::PLENTY),
        ),
    );
    drawers::show_all(
        b"walks, 1 allowed, kind #: compared # agreed # rings #\n",
        14,
        3,
        |drawer| at_limits(drawer, |limit| walked::compare(drawer, limit, 1)),
    );
    drawers::show_all(
        b"printed drawers, kind #: compared # agreed # lines #\n",
        12,
        3,
        |drawer| at_limits(drawer, |limit| printed::compare(drawer, limit)),
    );
}

fn main() {
    single::show_all();
    show_drawers();
    grid::compare();
}
