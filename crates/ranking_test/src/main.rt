// Seat numbers: single cases, all rows, seats and walks of short drawers against plain counting, and a grid of
// refusals.
#![tactic(auto)]

mod asked;
mod counted;
mod grid;
mod seats;
mod single;
mod walked;

use test_rows::drawers;

// All drawers of up to 12 stations, of kinds 1 and 2.
fn show_drawers() {
    drawers::show_all(
        b"seats of all rows, kind #: compared # agreed # sum #\n",
        12,
        2,
        counted::compare,
    );
    drawers::show_all(
        b"rings at all seats, kind #: compared # agreed # rings #\n",
        12,
        2,
        seats::compare,
    );
    drawers::show_all(
        b"walks, plenty allowed, kind #: compared # agreed # spent #\n",
        12,
        2,
        |drawer| walked::compare(drawer, walked::PLENTY),
    );
    drawers::show_all(
        b"walks, 1 allowed, kind #: compared # agreed # spent #\n",
        12,
        2,
        |drawer| walked::compare(drawer, 1),
    );
    drawers::show_all(
        b"walks, 3 allowed, kind #: compared # agreed # spent #\n",
        12,
        2,
        |drawer| walked::compare(drawer, 3),
    );
}

fn main() {
    single::show_all();
    show_drawers();
    grid::compare_all();
}
