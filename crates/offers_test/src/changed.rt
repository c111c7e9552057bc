// Offers changed in one field or byte, and taken; walks changed so, and told apart.
ghost use Rattle.std.specs.Prelude.{◌<◌, ◌≤◌};
ghost use Rattle.refusal.specs.Verdicts.{most_stations};

use crate::counts::Counts;
use crate::{counts, walks};
use offers::Offer;
use walk::{Answer, Standing, Walk};

// No change, 5 of the offer's own fields, 6 of the sizes, 9 standings, then 4 for each place of the two rows.
const CHANGES: usize = 21 + 4 * refusal::MOST_STATIONS;

fn other_of(offered: Answer) -> Answer {
    match offered {
        Answer::Ring => Answer::None,
        Answer::None => Answer::Ring,
    }
}

// Ring for none or none for ring; another allowance.
fn with_own(offer: Offer, number: usize) -> Offer {
    let allowance = offer.allowance;
    match number {
        0 => offer,
        1 => Offer {
            offered: other_of(offer.offered),
            ..offer
        },
        2 => Offer {
            allowance: 0,
            ..offer
        },
        3 => Offer {
            allowance: allowance.wrapping_sub(1),
            ..offer
        },
        4 => Offer {
            allowance: allowance.wrapping_add(1),
            ..offer
        },
        _ => Offer {
            allowance: u64::MAX,
            ..offer
        },
    }
}

// Stations, holes or kind one higher or lower.
fn with_size(walk: Walk, number: usize) -> Walk {
    match number {
        0 => Walk {
            n: walk.n.wrapping_add(1),
            ..walk
        },
        1 => Walk {
            n: walk.n.wrapping_sub(1),
            ..walk
        },
        2 => Walk {
            d: walk.d.wrapping_add(1),
            ..walk
        },
        3 => Walk {
            d: walk.d.wrapping_sub(1),
            ..walk
        },
        4 => Walk {
            kind: walk.kind.wrapping_add(1),
            ..walk
        },
        _ => Walk {
            kind: walk.kind.wrapping_sub(1),
            ..walk
        },
    }
}

// Each standing, with the place p, one higher and one lower.
fn standing_of(number: usize, p: usize) -> Standing {
    match number {
        0 => Standing::Limit,
        1 => Standing::Given,
        2 => Standing::Ended,
        3 => Standing::Down(p),
        4 => Standing::Down(p.wrapping_add(1)),
        5 => Standing::Down(p.wrapping_sub(1)),
        6 => Standing::Up(p),
        7 => Standing::Up(p.wrapping_add(1)),
        _ => Standing::Up(p.wrapping_sub(1)),
    }
}

// Another byte at a place.
fn with_byte(
    row: [u8; refusal::MOST_STATIONS],
    place: usize,
    by: u8,
) -> [u8; refusal::MOST_STATIONS]
    requires { place < most_stations }
{
    let mut changed = row;
    changed[place] = changed[place] ^ by;
    changed
}

// The lowest or the highest bit of a byte of the row, or of the row kept.
fn with_bit(walk: Walk, number: usize) -> Walk {
    let place = number / 4 % refusal::MOST_STATIONS;
    let by = if number % 2 == 0 { 1 } else { 128 };
    if number % 4 < 2 {
        return Walk {
            row: with_byte(walk.row, place, by),
            ..walk
        };
    }
    Walk {
        kept: with_byte(walk.kept, place, by),
        ..walk
    }
}

fn with_change(walk: Walk, number: usize) -> Walk {
    if number < 6 {
        return with_size(walk, number);
    }
    if number < 15 {
        return Walk {
            at: standing_of(number - 6, walk_records::standing_place(walk.at)),
            ..walk
        };
    }
    with_bit(walk, number - 15)
}

fn changed(offer: Offer, number: usize) -> Offer {
    if number < 6 {
        return with_own(offer, number);
    }
    Offer {
        walk: with_change(offer.walk, number - 6),
        ..offer
    }
}

// Each change of the offer of a look, taken on that same walk; and the walk, changed so, told from it.
fn take_all(before: Counts, is_walk: bool, index: usize) -> Counts {
    let walk = walks::numbered(is_walk, index);
    let offer = walks::offer_of(is_walk, index);
    let mut counts = before;
    for i in 0..CHANGES {
        counts = counts::takes(counts, walk, changed(offer, i));
        counts = counts::tells_apart(counts, walk, with_change(walk, i));
    }
    counts
}

pub fn show_changed(name: &[u8], is_walk: bool) {
    for hundred in 0..4 {
        let from = hundred * 100;
        let mut counts = Counts::new();
        for index in from..from + 100 {
            counts = take_all(counts, is_walk, index);
        }
        io::write_all(1, name);
        counts::print(counts, from, from + 100);
    }
}
