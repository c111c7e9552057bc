// Inputs by the hundred, compared with what they must give.
use drawer_input::Request;
use refusal::Refusal;
use test_rows::{FRESH, cases};
use test_texts::Text;

// Whether an input is read as is due. Where it is not at fault, the limit's symbols are at the front of the lent
// buffer; all else in it is as it was.
fn gives(input: &[u8], due: Result<Request, Refusal>, symbols: &[u8]) -> bool {
    let mut buffer = [FRESH; 256];
    let read = drawer_input::read_drawer(input, &mut buffer);
    let front = if due.is_ok() { symbols } else { b"" };
    read == due && test_texts::holds(&buffer, front.len(), front)
}

// A drawer with 3 holes and kind 1, or the line at fault.
fn due(stations: usize, size: usize, fault: Option<usize>) -> Result<Request, Refusal> {
    match fault {
        Some(line) => Err(Refusal::Text(line)),
        None => Ok(Request {
            stations,
            holes: 3,
            kind: 1,
            size,
        }),
    }
}

fn agrees(stations: usize, limit: &[u8], symbols: &[u8], fault: Option<usize>) -> bool {
    let mut input = Text::new();
    input.add_input(stations, 3, 1, limit);
    gives(input.as_slice(), due(stations, limit.len(), fault), symbols)
}

// The number n as the stations: read back below 1000.
fn number_agrees(n: usize) -> bool {
    let fault = if n < 1000 { None } else { Some(2) };
    agrees(n, b"111111", &[1; 6], fault)
}

// A limit of so many bytes: 223 of them fill a text of 256 bytes.
fn length_agrees(size: usize) -> bool {
    let fault = match size {
        0 => Some(2),
        1..=223 => None,
        _ => Some(1),
    };
    agrees(
        6,
        cases::part(&[b'1'; 240], 0, size),
        cases::part(&[1; 240], 0, size),
        fault,
    )
}

// The symbol that a byte of a limit stands for; 2 is no symbol.
fn symbol_due(b: u8) -> u8 {
    match b {
        b'0' => 0,
        b'1' => 1,
        _ => 2,
    }
}

// The byte b as the limit.
fn byte_agrees(b: u8) -> bool {
    let fault = if b == b'\n' || b == b' ' {
        Some(2)
    } else {
        None
    };
    agrees(1, &[b], &[symbol_due(b)], fault)
}

// The byte b at a place of the names.
fn name_agrees(place: usize, b: u8) -> bool {
    let mut input = Text::new();
    input.add_input(1, 3, 1, b"0");
    let at = place % 26;
    let fault = if input.bytes[at] == b { None } else { Some(1) };
    input.bytes[at] = b;
    gives(input.as_slice(), due(1, 1, fault), &[0])
}

pub fn compare_all() {
    test_rows::show_agreeing(b"numbers", 1100, number_agrees);
    test_rows::show_agreeing(b"lengths", 240, length_agrees);
    test_rows::show_agreeing(b"bytes", 256, |i| byte_agrees((i % 256) as u8));
    test_rows::show_agreeing(b"names", 6656, |i| name_agrees(i / 256, (i % 256) as u8));
}
