// The drawer program's lines, written.
#![tactic(auto)]

ghost use Rattle.std.specs.Prelude.{◌≡◌, ◌≤◌, length};
ghost use Rattle.drawer_lines.specs.Lines.{header, ring_line, end_line, refusal_text, longest_line, written, count_of};

use refusal::Refusal;

// The longest that a line or a refusal's text can be: a row, three numbers of up to 20 digits, and four bytes between and behind them.
pub const LONGEST_LINE: usize = refusal::MOST_STATIONS + 64;

// The bytes of what is the same in every text: the names, and what stands beside the numbers in the last line and in a refusal's text.
const HEADER: usize = 25;

const END: usize = 9;

const REFUSAL: usize = 16;

// How many bytes were written is 0 where there is no room, as `count_of` in each clause has it, so it is no Option.

// The names of the program's output to the front of a buffer; how many bytes were written.
pub fn write_header(out: &mut [u8]) -> usize
    ensures answer { result ≡ count_of header (length out.old) }
    ensures buffer { out.new ≡ written header out.old }
{
    if out.len() < HEADER {
        return 0;
    }
    text::write::put(out, 0, b"number row period trials\n")
}

// A ring's line to the front of a buffer; how many bytes were written.
pub fn write_ring(number: u64, row: &[u8], period: u64, trials: u64, out: &mut [u8]) -> usize
    ensures answer { result ≡ count_of (ring_line number row.now period trials) (length out.old) }
    ensures buffer { out.new ≡ written (ring_line number row.now period trials) out.old }
{
    if out.len() < row.len() {
        return 0;
    }
    let digits = text::write::decimal_length(number)
        + text::write::decimal_length(period)
        + text::write::decimal_length(trials);
    if out.len() - row.len() < digits + 4 {
        return 0;
    }
    let a = text::write::put_field(out, 0, number, b' ');
    let b = text::symbols::put_row(out, a, row);
    let c = text::write::put_field(out, b, period, b' ');
    text::write::put_field(out, c, trials, b'\n')
}

// The last line to the front of a buffer; how many bytes were written.
pub fn write_end(trials: u64, out: &mut [u8]) -> usize
    ensures answer { result ≡ count_of (end_line trials) (length out.old) }
    ensures buffer { out.new ≡ written (end_line trials) out.old }
{
    if out.len() < text::write::decimal_length(trials) + END {
        return 0;
    }
    let a = text::write::put(out, 0, b"end - - ");
    text::write::put_field(out, a, trials, b'\n')
}

// The text of a refusal to the front of a buffer; how many bytes were written.
pub fn write_refusal(r: Refusal, out: &mut [u8]) -> usize
    ensures answer { result ≡ count_of (refusal_text r) (length out.old) }
    ensures buffer { out.new ≡ written (refusal_text r) out.old }
    ensures short { length (refusal_text r) ≤ longest_line }
{
    let number = u64::from(refusal::number(r));
    // by `as`: no From leads from a usize to a u64
    let place = refusal::place(r) as u64;
    if out.len()
        < text::write::decimal_length(number) + text::write::decimal_length(place) + REFUSAL
    {
        return 0;
    }
    let a = text::write::put(out, 0, b"refused place\n");
    let b = text::write::put_field(out, a, number, b' ');
    text::write::put_field(out, b, place, b'\n')
}
