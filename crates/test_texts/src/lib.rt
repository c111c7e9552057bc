// Texts for the test programs: filled in from a form, and compared.
#![tactic(auto)]

ghost use Rattle.std.specs.Prelude.{◌≤◌};

// The most bytes of a text.
pub const ROOM: usize = 8192;

// A text: the first bytes of an array.
#[derive(Drop)]
pub struct Text {
    pub bytes: [u8; ROOM],
    pub size: usize,
    ghost inside: { size ≤ 8192 },
}

impl Text {
    pub fn new() -> Text {
        Text {
            bytes: [0u8; ROOM],
            size: 0,
        }
    }

    pub fn as_slice(&self) -> &[u8] {
        &self.bytes[..self.size]
    }

    // Adds a piece, as far as there is room.
    pub fn append(&mut self, piece: &[u8]) {
        let start = self.size;
        let taken = piece.len().min(ROOM - start);
        self.bytes[start..start + taken].copy_from_slice(&piece[..taken]);
        self.size = start + taken;
    }

    // Adds a number in decimal digits.
    fn append_number(&mut self, n: usize) {
        let mut digits = [0u8; 20];
        let count = io::decimal(n as u64, &mut digits);
        self.append(&digits[..count]);
    }

    // Adds a form, with numbers for its `#`, in this order, and a piece for each `@`.
    pub fn fill(&mut self, form: &[u8], numbers: &[usize], piece: &[u8]) {
        let mut rest = numbers.iter();
        for byte in form {
            match byte {
                b'#' => self.append_number(rest.next().copied().unwrap_or(0)),
                b'@' => self.append(piece),
                _ => self.append(&[*byte]),
            }
        }
    }
}

impl Text {
    // Adds an input of the drawer program.
    pub fn add_input(&mut self, n: usize, d: usize, kind: usize, limit: &[u8]) {
        self.fill(
            b"stations holes kind limit\n# # # @\n",
            &[n, d, kind],
            limit,
        );
    }
}

// The first bytes of a buffer.
pub fn print_front(n: usize, buffer: &[u8]) {
    if let Some(front) = buffer.get(..n) {
        io::write_all(1, front);
    }
}

// Whether the first n bytes of a buffer are a text, and the bytes behind them as they were.
pub fn holds(buffer: &[u8], n: usize, text: &[u8]) -> bool {
    match buffer.split_at_checked(n) {
        Some((front, behind)) => {
            front == text && behind.iter().all(|byte| *byte == test_rows::FRESH)
        }
        None => false,
    }
}
