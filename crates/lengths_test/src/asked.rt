// The length, asked of a drawer.
use lengths::Length;
use refusal::Refusal;
use test_rows::Drawer;

pub fn length(drawer: Drawer, limit: &[u8]) -> Result<Length, Refusal> {
    lengths::drawer_length(drawer.n, drawer.d, drawer.kind, limit)
}

// Whether the rings counted are what a length says: exactly so many, of kind 3 no more.
pub fn covers(told: Result<Length, Refusal>, kind: u8, counted: usize) -> bool {
    match told {
        Ok(Length::Exactly(rings)) => kind != 3 && counted as u64 == rings,
        Ok(Length::AtMost(rings)) => kind == 3 && counted as u64 <= rings,
        Err(_) => false,
    }
}
