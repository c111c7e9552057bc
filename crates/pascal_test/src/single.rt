// Single look-ups: specimens, and the refusals in their order.
use test_rows::cases;

fn show(line: &[u8]) {
    io::write_all(1, line);
    io::write_all(1, b": ");
    match pascal::ways(cases::number(line, 1), cases::number(line, 2)) {
        Ok(x) => test_rows::print_named(b"", x as usize),
        Err(r) => test_rows::print_refusal(r),
    }
    io::write_all(1, b"\n");
}

pub fn show_all() {
    cases::each(
        b"ways 0 0\n\
          ways 1 1\n\
          ways 6 3\n\
          ways 64 0\n\
          ways 64 31\n\
          ways 64 32\n\
          ways 64 33\n\
          ways 64 64\n\
          ways 65 0\n\
          ways 65 66\n\
          ways most most\n\
          ways 0 1\n\
          ways 64 65\n\
          ways 3 most\n",
        b'\n',
        show,
    );
}
