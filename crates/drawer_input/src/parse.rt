// The drawer program's line of values, read from a place on.
ghost use Rattle.std.specs.Prelude.{◌≡◌};
ghost use Rattle.drawer_input.specs.Input.{limit_at, values_at};

use crate::Values;
use text::Bytes;

// The rest of a line of values, behind its three numbers: the limit, and a line feed.
pub fn limit_at(
    text: &[u8],
    stations: usize,
    holes: usize,
    kind: usize,
    at: usize,
) -> Option<Values>
    ensures { result ≡ limit_at text.now stations holes kind at }
{
    let size = text::read::run_at(text, at, Bytes::Unspaced);
    if size == 0 || !text::read::stands_at(text, at + size, b"\n") {
        return None;
    }
    Some(Values {
        stations,
        holes,
        kind,
        start: at,
        size,
    })
}

// The line of values at a place.
pub fn values_at(text: &[u8], at: usize) -> Option<Values>
    ensures { result ≡ values_at text.now at }
{
    let stations = text::read::spaced_at(text, at)?;
    let holes = text::read::spaced_at(text, stations.next)?;
    let kind = text::read::spaced_at(text, holes.next)?;
    limit_at(text, stations.value, holes.value, kind.value, kind.next)
}
