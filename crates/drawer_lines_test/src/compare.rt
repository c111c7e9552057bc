// Lines by the hundred, compared with what they must be.
use test_rows::FRESH;
use test_texts::Text;

// The line of a ring in a buffer of which so many bytes are lent: it is whole where its 14 bytes have room, else
// nothing.
fn room_agrees(room: usize) -> bool {
    let mut out = [FRESH; 256];
    let lent = room.min(256);
    let n = drawer_lines::write_ring(1, &[0, 1, 0, 1, 0, 1], 2, 11, &mut out[..lent]);
    let line: &[u8] = if 14 <= room { b"1 010101 2 11\n" } else { b"" };
    test_texts::holds(&out, n, line)
}

// The line of the end for a number, against the digits that the kit's crate gives.
fn end_agrees(n: usize) -> bool {
    let mut line = Text::new();
    line.fill(b"end - - #\n", &[n], b"");
    let mut out = [FRESH; 256];
    let used = drawer_lines::write_end(n as u64, &mut out);
    test_texts::holds(&out, used, line.as_slice())
}

pub fn compare_rooms() {
    test_rows::show_agreeing(b"rooms", 257, room_agrees);
}

// Numbers from the highest down, each lower by a fortieth and 1.
pub fn compare_ends() {
    let mut agreed: usize = 0;
    let mut compared: usize = 0;
    let mut n = usize::MAX;
    while 0 < n {
        agreed += usize::from(end_agrees(n));
        compared += 1;
        n = n - n / 40 - 1;
    }
    test_rows::print_counts(b"ends", compared, agreed);
}
