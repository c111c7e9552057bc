// The drawer program's input, read.
#![tactic(auto)]

pub mod parse;

ghost use Rattle.std.specs.Prelude.{◌≡◌, length};
ghost use Rattle.drawer_input.specs.Input.{limit_filled, read_drawer, request_for};

use refusal::Refusal;

// The most bytes that an input may have.
pub const MOST_BYTES: usize = 256;

// The bytes of the names.
const NAMES: usize = 26;

// A line of values: stations, holes, kind, and where the limit starts and how long it is.
#[derive(Clone, Copy, PartialEq, Eq)]
pub struct Values {
    pub stations: usize,
    pub holes: usize,
    pub kind: usize,
    pub start: usize,
    pub size: usize,
}

// What the program is asked: stations, holes, kind and the length of the limit.
#[derive(Clone, Copy, PartialEq, Eq)]
pub struct Request {
    pub stations: usize,
    pub holes: usize,
    pub kind: usize,
    pub size: usize,
}

// Reads the drawer program's input. The limit's symbols are written to the front of a lent buffer.
pub fn read_drawer(text: &[u8], limit: &mut [u8]) -> Result<Request, Refusal>
    ensures answer { result ≡ request_for (read_drawer text.now) (length limit.old) }
    ensures buffer { limit.new ≡ limit_filled (read_drawer text.now) limit.old }
{
    if MOST_BYTES < text.len() || !text::read::stands_at(text, 0, b"stations holes kind limit\n") {
        return Err(Refusal::Text(1));
    }
    let Some(values) = parse::values_at(text, NAMES) else {
        return Err(Refusal::Text(2));
    };
    let end = values.start + values.size;
    if end + 1 != text.len() {
        return Err(Refusal::Text(3));
    }
    if limit.len() < values.size {
        return Err(Refusal::Buffer);
    }
    text::symbols::write_symbols(&text[values.start..end], limit);
    Ok(Request {
        stations: values.stations,
        holes: values.holes,
        kind: values.kind,
        size: values.size,
    })
}
