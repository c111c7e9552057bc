// The order of two rows, the place where they first differ and the pairs compared, by plain search.
use std::cmp::Ordering;
use words::Compared;

// What stands at an index: 0 behind the end, else one above the byte.
fn symbol(row: &[u8], i: usize) -> usize {
    row.get(i).map_or(0, |x| 1 + usize::from(*x))
}

// The place, from 1, where rows of up to 300 bytes first differ, an end before any byte; 0 for equal rows.
fn first_difference(a: &[u8], b: &[u8]) -> usize {
    let mut places = 1..=301;
    places
        .find(|place| symbol(a, *place - 1) != symbol(b, *place - 1))
        .unwrap_or(0)
}

// The order of the symbols at a place.
fn order_at(a: &[u8], b: &[u8], place: usize) -> Ordering {
    if place == 0 {
        return Ordering::Equal;
    }
    symbol(a, place - 1).cmp(&symbol(b, place - 1))
}

// How many pairs are compared of rows that first differ at a place: over `shorter` symbols, words of eight and then
// single ones.
fn pairs(shorter: usize, place: usize) -> usize {
    let words = shorter / 8;
    if place == 0 || shorter < place {
        return words + shorter % 8;
    }
    if place <= words * 8 {
        return (place - 1) / 8 + 1;
    }
    words + (place - words * 8)
}

// Whether a comparison of two rows says what plain search says.
fn agrees(a: &[u8], b: &[u8], compared: Compared) -> bool {
    let place = first_difference(a, b);
    let shorter = a.len().min(b.len());
    compared.place == place
        && compared.order == order_at(a, b, place)
        && compared.pairs == pairs(shorter, place)
}

// Comparisons of two rows: how many agree with plain search, how many say higher, and the sums of their places and
// pairs.
#[derive(Clone, Copy, Default)]
pub struct Tally {
    pub agreed: usize,
    pub higher: usize,
    pub places: usize,
    pub pairs: usize,
}

impl Tally {
    // One more.
    pub fn with(self, a: &[u8], b: &[u8]) -> Tally {
        let compared = words::compare(a, b);
        let agreed = usize::from(agrees(a, b, compared));
        let higher = usize::from(compared.order.is_gt());
        Tally {
            agreed: self.agreed.wrapping_add(agreed),
            higher: self.higher.wrapping_add(higher),
            places: self.places.wrapping_add(compared.place),
            pairs: self.pairs.wrapping_add(compared.pairs),
        }
    }

    pub fn print(self, compared: usize) {
        test_rows::print_filled(
            b"compared # agreed # higher # places # pairs #\n",
            &[compared, self.agreed, self.higher, self.places, self.pairs],
        );
    }
}
