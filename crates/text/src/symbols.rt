// Symbols as characters, read and written.
ghost use Rattle.std.specs.Prelude.{◌≡◌, map, ◌+◌, ◌≤◌, length};
ghost use Rattle.words.specs.Buffers.{fronted};
ghost use Rattle.text.specs.Symbols.{symbol_of, character_of, row_field};
ghost use Rattle.text.specs.Buffers.{placed};

// The symbol that a byte of a limit stands for.
pub fn symbol(byte: u8) -> u8
    ensures { result ≡ symbol_of byte }
{
    match byte {
        b'0' => 0,
        b'1' => 1,
        _ => 2,
    }
}

// The symbols of a limit to the front of a buffer.
pub fn write_symbols(bytes: &[u8], out: &mut [u8])
    requires { length bytes.now ≤ length out.old }
    ensures { out.new ≡ fronted (map symbol_of bytes.now) out.old }
{
    for (i, byte) in bytes.iter().enumerate() {
        out[i] = symbol(*byte);
    }
}

// The character of a symbol.
pub fn character(symbol: u8) -> u8
    ensures { result ≡ character_of symbol }
{
    if symbol == 0 { b'0' } else { b'1' }
}

// A row and the space behind it at a place of a buffer; the place behind them.
pub fn put_row(out: &mut [u8], at: usize, row: &[u8]) -> usize
    requires { at + length (row_field row.now) ≤ length out.old }
    ensures { (result ≡ at + length (row_field row.now)) × (out.new ≡ placed out.old at (row_field row.now)) }
{
    for (i, symbol) in row.iter().enumerate() {
        out[at + i] = character(*symbol);
    }
    let end = at + row.len();
    out[end] = b' ';
    end + 1
}
