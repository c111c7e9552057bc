// The comparison byte by byte, as it was before it took words.
use std::cmp::Ordering;
use words::Compared;

pub fn compare(a: &[u8], b: &[u8]) -> Compared {
    let shorter = a.len().min(b.len());
    for i in 0..shorter {
        let x = a[i];
        let y = b[i];
        if x != y {
            return Compared {
                order: x.cmp(&y),
                place: i + 1,
                pairs: 0,
            };
        }
    }
    if a.len() == b.len() {
        return Compared {
            order: Ordering::Equal,
            place: 0,
            pairs: 0,
        };
    }
    Compared {
        order: a.len().cmp(&b.len()),
        place: shorter + 1,
        pairs: 0,
    }
}
