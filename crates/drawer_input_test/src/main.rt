// Shows the faults of the drawer program's input, and compares many inputs.
#![tactic(auto)]

mod compare;

ghost use Rattle.std.specs.Prelude.{◌≤◌};

use test_rows::{FRESH, cases};

// A line for an input, with a buffer of which room bytes are lent.
fn show(text: &[u8], room: usize)
    requires { room ≤ 256 }
{
    let mut limit = [FRESH; 256];
    match drawer_input::read_drawer(text, &mut limit[..room]) {
        Ok(request) => {
            let numbers = [request.stations, request.holes, request.kind];
            test_rows::print_filled(b"# # # ", &numbers);
            test_rows::print_row(request.size, &limit);
        }
        Err(r) => test_rows::print_refusal(r),
    }
    test_rows::print_as_before(test_rows::count_fresh(&limit));
}

// A line for each input, of which each is ended by a `|`.
fn show_each(texts: &[u8], room: usize)
    requires { room ≤ 256 }
{
    cases::each(texts, b'|', |text| show(text, room));
}

// Faults of the first line and of the second.
fn show_faults() {
    show_each(
        b"|\
        \n|\
        stations holes kind limit|\
        stations holes kind limi\n6 3 1 111111\n|\
        stations holes kind limit \n6 3 1 111111\n|\
        stations  holes kind limit\n6 3 1 111111\n|\
        Stations holes kind limit\n6 3 1 111111\n|\
        stations holes kind limit\r\n6 3 1 111111\n|\
        6 3 1 111111\n|\
        stations holes kind limit 6 3 1 111111\n|\
        stations holes kind limit\n|\
        stations holes kind limit\n\n|\
        stations holes kind limit\n6 3 1 111111|\
        stations holes kind limit\n6 3 1\n|\
        stations holes kind limit\n6 3 1 \n|\
        stations holes kind limit\n6 3 111111\n|\
        stations holes kind limit\n6 3  1 111111\n|\
        stations holes kind limit\n 6 3 1 111111\n|\
        stations holes kind limit\n6 3 1 111111 \n|\
        stations holes kind limit\n6 3 1 111 111\n|\
        stations holes kind limit\n06 3 1 111111\n|\
        stations holes kind limit\n6 00 1 111111\n|\
        stations holes kind limit\n6 3 01 111111\n|\
        stations holes kind limit\n1000 3 1 111111\n|\
        stations holes kind limit\n6 3333 1 111111\n|\
        stations holes kind limit\n-6 3 1 111111\n|\
        stations holes kind limit\n6x 3 1 111111\n|\
        stations holes kind limit\n6,3,1,111111\n|\
        stations holes kind limit\n6 3 x 111111\n6 3 1 111111\n|",
        256,
    );
}

// Bytes behind the second line, too little room for the limit, and inputs with no fault.
fn show_behind() {
    show_each(
        b"stations holes kind limit\n6 3 1 111111\n\n|\
        stations holes kind limit\n6 3 1 111111\n6 3 1 111111\n|\
        stations holes kind limit\n6 3 1 111111\n |",
        256,
    );
    show_each(
        b"stations holes kind limit\n6 3 1 111111\n|\
        stations holes kind limit\n6 3 1 111111\nx|",
        5,
    );
    show_each(b"stations holes kind limit\n6 3 1 111111\n|", 6);
    show_each(
        b"stations holes kind limit\n6 3 1 111111\n|\
        stations holes kind limit\n0 0 0 0\n|\
        stations holes kind limit\n999 999 999 1\n|\
        stations holes kind limit\n10 20 100 0a1:2\n|\
        stations holes kind limit\n64 32 2 0101010101010101010101010101010101010101010101010101010101010101\n|",
        256,
    );
}

fn main() {
    show_faults();
    show_behind();
    compare::compare_all();
}
