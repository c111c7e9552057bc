// Single records on purpose: unfit ones of each clause, and fit ones that no opening and no step hands back.
use test_rows::cases;
use walk::{Standing, Stepped, Walk};

// The row of 64 bytes that begins with the digits of word k; zeros where there is no such word.
fn row_of(fields: &[u8], k: usize) -> [u8; refusal::MOST_STATIONS] {
    if test_rows::count(fields, b' ') < k {
        return [0; refusal::MOST_STATIONS];
    }
    let symbols = cases::symbols(cases::word(fields, k));
    std::array::from_fn(|i| symbols[i])
}

// A standing by the first letter of its name.
fn standing_of(letter: u8, place: usize) -> Standing {
    match letter {
        b'L' => Standing::Limit,
        b'D' => Standing::Down(place),
        b'U' => Standing::Up(place),
        b'G' => Standing::Given,
        _ => Standing::Ended,
    }
}

// The place that a step carries, and the row kept after it.
fn print_kept(step: Stepped) {
    let after = step.walk;
    test_rows::print_filled(b" carries # kept ", &[step.place]);
    test_rows::print_row(after.n, &after.kept);
}

fn print_step(w: Walk, step: Stepped) {
    let after = step.walk;
    let standing = usize::from(walk_records::standing_number(after.at));
    test_walks::print_said(step.answer);
    test_rows::print_filled(b" trials #", &[step.trials as usize]);
    test_walks::print_row(after);
    test_rows::print_filled(
        b" standing # place #",
        &[standing, walk_records::standing_place(after.at)],
    );
    print_kept(step);
    io::write_all(1, b" unchanged");
    test_walks::print_truth(walk_records::same_walk(w, after));
}

// A line is a name, then stations, holes, kind, standing, its place, and as digits the row and the row kept.
fn show(line: &[u8]) {
    let fields = cases::piece(line, b':', 1);
    let drawer = cases::drawer(fields, 1);
    let at = standing_of(
        cases::first_byte(cases::word(fields, 4)),
        cases::number(fields, 5),
    );
    let w = Walk {
        n: drawer.n,
        d: drawer.d,
        kind: drawer.kind,
        row: row_of(fields, 6),
        at,
        kept: row_of(fields, 7),
    };
    io::write_all(1, cases::piece(line, b':', 0));
    print_step(w, w.step(1000));
}

pub fn show_single() {
    // sizes and bytes, then standings, then rows kept, then fit records
    cases::each(
        b"stations 0: 0 0 1 Limit 0 \n\
          stations 65: 65 0 1 Limit 0 \n\
          most stations: most 0 1 Ended 0 \n\
          holes above: 3 4 1 Limit 0 001\n\
          most holes: 3 most 1 Limit 0 001\n\
          kind 0: 3 1 0 Limit 0 001\n\
          kind 4: 3 1 4 Given 0 001\n\
          kind 255: 3 1 255 Ended 0 000\n\
          byte 2 first: 3 1 1 Limit 0 201\n\
          byte 2 last: 3 1 1 Down 1 002\n\
          byte 1 after: 3 1 1 Limit 0 0011\n\
          byte 2 after: 3 1 1 Given 0 00102\n\
          byte 1 at the end: 3 1 1 Limit 0 0010000000000000000000000000000000000000000000000000000000000001\n\
          Down 0: 3 1 1 Down 0 001\n\
          Down 4 of 3: 3 1 1 Down 4 001\n\
          Down most: 3 1 1 Down most 001\n\
          Up 0: 3 1 1 Up 0 001\n\
          Up 1: 3 1 1 Up 1 001\n\
          Up 4 of 3: 3 1 1 Up 4 001\n\
          Up most: 3 1 1 Up most 001\n\
          Up after 010: 8 3 1 Up 4 01000000\n\
          Up after 1: 8 3 1 Up 2 10000000\n\
          Up after too many holes: 8 3 1 Up 8 00011110\n\
          Given, other holes: 8 3 1 Given 0 00001111\n\
          Given, not shelved: 8 3 1 Given 0 00000110\n\
          Given, with symmetry: 4 2 2 Given 0 0101\n\
          Given, lower turned over: 6 3 3 Given 0 001101\n\
          Ended, last symbol 1: 3 1 1 Ended 0 001\n\
          Ended, byte 1 after: 3 1 1 Ended 0 0001\n\
          kept byte 2 first: 3 1 1 Limit 0 001 201\n\
          kept byte 2 last: 3 1 1 Down 3 001 002\n\
          kept byte 1 after: 3 1 1 Given 0 001 0011\n\
          kept byte 2 after: 3 1 1 Up 2 001 00002\n\
          kept byte 1 at the end: 3 1 1 Limit 0 001 0010000000000000000000000000000000000000000000000000000000000001\n\
          kept byte 2 of 64: 64 0 1 Limit 0 0 0000000000000000000000000000000000000000000000000000000000000002\n\
          Ended, kept 1 first: 3 1 1 Ended 0 000 1\n\
          Ended, kept 1 last: 3 1 1 Ended 0 000 001\n\
          Ended, kept 1 after: 3 1 1 Ended 0 000 0001\n\
          Down 3 of 3: 3 1 1 Down 3 111\n\
          Down 1: 3 1 1 Down 1 000\n\
          Up 4 after 001: 8 3 1 Up 4 00100000\n\
          Up 4, symbols to be written over: 8 3 1 Up 4 00111111\n\
          Given, of kind 1: 4 2 1 Given 0 0101\n\
          Given, of kind 3: 6 3 3 Given 0 001011\n\
          Given, of kind 3, its own reverse: 6 3 3 Given 0 000111\n\
          Given, of kind 3, with symmetry: 4 2 3 Given 0 0101\n\
          Limit, lower turned over: 6 3 3 Limit 0 001101\n\
          Given, without holes: 3 0 1 Given 0 000\n\
          Limit, other holes: 8 3 1 Limit 0 11111111\n\
          Ended: 3 1 1 Ended 0 000\n\
          kept not shelved, of other holes: 8 3 1 Limit 0 00011000 11111111\n\
          kept the limit: 8 3 1 Limit 0 00011000 00011000\n\
          kept the ring found: 8 3 1 Limit 0 00011000 00010101\n\
          kept lower than the ring: 8 3 1 Down 8 00100100 00000001\n\
          kept the ring but for its last symbol: 8 3 1 Up 4 00100000 00100100\n\
          kept the ring given: 8 3 1 Given 0 00010101 00010101\n\
          kept another than the ring given: 8 3 1 Given 0 00010101 00011111\n\
          kept another than the limit found: 8 3 1 Limit 0 00010101 00100101\n\
          kept before none: 8 3 1 Limit 0 00000110 10101010\n\
          kept before none, without holes: 3 0 1 Given 0 000 111\n\
          kept symmetric, of kind 2: 4 2 2 Limit 0 0101 0101\n\
          kept lower turned over, of kind 3: 6 3 3 Limit 0 001101 001101\n\
          kept of 64, other last: 64 64 1 Limit 0 1111111111111111111111111111111111111111111111111111111111111111 \
            1111111111111111111111111111111111111111111111111111111111111110\n",
        b'\n',
        show,
    );
}
