// Writing pieces of text into a lent buffer that has room for them.
ghost use Rattle.std.specs.Prelude.{◌≡◌, ◌+◌, ◌≤◌, length};
ghost use Rattle.text.specs.Decimals.{decimal, field};
ghost use Rattle.text.specs.Buffers.{placed};

// How many decimal digits a number has.
pub fn decimal_length(n: u64) -> usize
    ensures { (result ≡ length (decimal n)) × (result ≤ 20) }
{
    let mut count: usize = 1;
    // a `while`: it goes by the digits, as `decimal` does, and by no index
    let mut rest = n;
    while 10 <= rest {
        rest /= 10;
        count += 1;
    }
    count
}

// A piece at a place of a buffer; the place behind it.
pub fn put(out: &mut [u8], at: usize, piece: &[u8]) -> usize
    requires { at + length piece.now ≤ length out.old }
    ensures { (result ≡ at + length piece.now) × (out.new ≡ placed out.old at piece.now) }
{
    words::inner::write_front(piece, &mut out[at..]);
    at + piece.len()
}

// A number and the byte behind it at a place of a buffer; the place behind them.
pub fn put_field(out: &mut [u8], at: usize, n: u64, end: u8) -> usize
    requires { at + length (field n end) ≤ length out.old }
    ensures { (result ≡ at + length (field n end)) × (out.new ≡ placed out.old at (field n end)) }
{
    // digits by `as`: no From narrows
    // a `while`: it goes by the digits, from the last
    let mut text = [end; 21];
    let mut from: usize = 20;
    let mut rest = n;
    while 10 <= rest {
        from -= 1;
        text[from] = b'0' + (rest % 10) as u8;
        rest /= 10;
    }
    from -= 1;
    text[from] = b'0' + rest as u8;
    put(out, at, &text[from..])
}
