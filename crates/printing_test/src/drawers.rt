// Inputs made of numbers, and the refusal of each.
ghost use Rattle.std.specs.Prelude.{◌<◌, ◌≤◌};

use test_rows::cases;
use test_texts::Text;

// An input: stations, holes and kind, a limit of the last `size` binary digits of a number, and a wrong byte at a place
// of it, from 1, or none.
#[derive(Clone, Copy)]
pub struct Case {
    pub n: usize,
    pub d: usize,
    pub kind: usize,
    pub size: usize,
    pub limit: usize,
    pub wrong: Option<(usize, u8)>,
}

// A drawer at a limit.
pub fn drawer(n: usize, d: usize, kind: usize, limit: usize) -> Case {
    Case {
        n,
        d,
        kind,
        size: n,
        limit,
        wrong: None,
    }
}

impl Case {
    // The input, with a limit of at most 64 bytes.
    pub fn add_input(self, text: &mut Text) {
        let mut limit = test_rows::digits_of_number(self.size, self.limit);
        if let Some((place, byte)) = self.wrong {
            if 0 < place && place <= refusal::MOST_STATIONS {
                limit[place - 1] = byte;
            }
        }
        text.add_input(self.n, self.d, self.kind, cases::part(&limit, 0, self.size));
    }

    // The refusal's number and place, in document 01's order.
    pub fn refused(self) -> Option<(usize, usize)> {
        if self.size == 0 {
            return Some((10, 2));
        }
        if !refusal::are_stations(self.n) {
            return Some((1, 0));
        }
        if self.n < self.d {
            return Some((2, 0));
        }
        if self.kind == 0 || 3 < self.kind {
            return Some((5, 0));
        }
        if self.size != self.n {
            return Some((4, 0));
        }
        self.wrong.map(|(place, _)| (3, place))
    }
}

// ---- openings, refused and not

// A few numbers from 0 on, and then some that are higher by a leap.
fn spread(i: usize, few: usize, leap: usize) -> usize
    requires { (i < 10) × (leap < 1000) }
{
    if i < few { i } else { leap + i }
}

// About as many as the stations, of 64 and more about none: one less, as many, or one more.
fn size_of(n: usize, i: usize) -> usize
    requires { i < 3 }
    ensures { result ≤ 17 }
{
    let most = n % 16 + i;
    if most == 0 { 0 } else { most - 1 }
}

// The place of a wrong symbol: none, the first, the last or one amid.
fn wrong_of(size: usize, i: usize) -> Option<usize>
    requires { size ≤ 17 }
{
    if size == 0 {
        return None;
    }
    match i {
        0 => None,
        1 => Some(1),
        2 => Some(size),
        _ => Some((size + 1) / 2),
    }
}

// Stations 0 to 6 and 64 to 66, 0 to 6 holes and 999, kinds 0 to 4 and 256 to 260, some of which a byte would cut to 1
// to 3.
pub fn opening(index: usize) -> Case {
    let n = spread(index % 10, 7, 57);
    let size = size_of(n, index / 800 % 3);
    let which = index / 2400 % 4;
    Case {
        n,
        d: spread(index / 10 % 8, 7, 992),
        kind: spread(index / 80 % 10, 5, 251),
        size,
        limit: index % 1000 * 37,
        wrong: wrong_of(size, which).map(|place| (place, (which * 80) as u8)),
    }
}

// ---- drawers

// How many limits a drawer is listed at: at all of them up to 7 stations, else at n ones.
fn limits_of(n: usize) -> usize
    ensures { (1 ≤ result) × (result ≤ 128) }
{
    if n < 8 { 1usize << n } else { 1 }
}

// How many drawers of n stations there are, each of each kind and at each limit.
pub fn count(n: usize) -> usize
    requires { n ≤ 14 }
{
    (n + 1) * 3 * limits_of(n)
}

// The drawers of n stations: each kind of each limit, holes by holes.
pub fn numbered(n: usize, index: usize) -> Case {
    let limits = limits_of(n);
    let limit = if n < 8 {
        index / 3 % limits
    } else {
        usize::MAX
    };
    drawer(n, index / 3 / limits, 1 + index % 3, limit)
}
