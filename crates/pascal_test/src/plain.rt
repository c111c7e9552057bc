// The ways to choose, by adding up, and what is refused.

// Places in a row of the plain table.
pub const WIDTH: usize = 65;

// The ways for (top, bottom) at place 65 top + bottom: each row is the one above it, and that again one place further.
pub fn table() -> [usize; 4225] {
    let mut table = [0usize; 4225];
    table[0] = 1;
    for i in WIDTH..4225 {
        let left = if i % WIDTH == 0 {
            0
        } else {
            table[i - WIDTH - 1]
        };
        table[i] = table[i - WIDTH].wrapping_add(left);
    }
    table
}

// The entry for (top, bottom), 0 outside.
pub fn entry(table: &[usize; 4225], top: usize, bottom: usize) -> usize {
    if WIDTH <= top {
        return 0;
    }
    if WIDTH <= bottom {
        return 0;
    }
    table[WIDTH * top + bottom]
}

// The number of the refusal, 0 where nothing is refused, written out: this decision is none of the library's.
pub fn ways_refusal(top: usize, bottom: usize) -> usize {
    if 64 < top {
        return 1;
    }
    if top < bottom { 2 } else { 0 }
}
