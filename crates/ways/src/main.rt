// Prints the ways to choose, top rising, bottom rising within it. It stops at once where output is not taken.
#![tactic(auto)]

// A number and what follows it; whether all of it was taken.
fn print_field(n: u64, behind: &[u8]) -> bool {
    io::print_decimal(1, n) && io::write_all(1, behind)
}

// A line, with nothing but the look-up to print from; whether all of it was taken.
fn print_line(table: &[u64; pascal::ENTRIES], top: usize, bottom: usize) -> bool {
    match pascal::ways_in(table, top, bottom) {
        Ok(x) => {
            // by `as`: no From leads from a usize to a u64
            print_field(top as u64, b" ")
                && print_field(bottom as u64, b" ")
                && print_field(x, b"\n")
        }
        Err(_) => false,
    }
}

// The lines of a top; whether all of them were taken.
fn print_row(table: &[u64; pascal::ENTRIES], top: usize) -> bool {
    (0..=top).all(|bottom| print_line(table, top, bottom))
}

fn main() {
    if !io::write_all(1, b"top bottom ways\n") {
        return;
    }
    let table = pascal::triangle();
    for top in 0..=pascal::LAST_ROW {
        if !print_row(&table, top) {
            return;
        }
    }
}
