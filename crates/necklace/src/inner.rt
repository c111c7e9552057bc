// Helpers over rows that are already checked, of any alphabet.
ghost use Rattle.std.specs.Prelude.{◌≡◌, ◌<◌, ◌≤◌, length, get_or};
ghost use Rattle.words.specs.Buffers.{fronted};
ghost use Rattle.words.specs.Rotation.{least_index, period, rotation};

use crate::RowKey;
use std::cmp::Ordering;

// The symbol at place i of the rotation by j.
pub fn symbol(row: &[u8], j: usize, i: usize) -> u8
    requires { (j ≤ length row.now) × (i < length row.now) }
    ensures { result ≡ get_or (rotation j row.now) i 0 }
{
    let tail = row.len() - j;
    if i < tail { row[j + i] } else { row[i - tail] }
}

// The least rotation: the rotations in their order against the least so far, which lies at b.
pub fn least_rotation(row: &[u8]) -> RowKey
    requires { 0 < length row.now }
    ensures { (result.rotation ≡ least_index row.now) × (result.period ≡ period row.now) }
{
    let n = row.len();
    let mut b: usize = 0;
    'rotations: for j in 1..n {
        // the tail of the row, from place j on, and what the rotation by b has beside it
        let mut i: usize = 0;
        let mut from = j;
        let mut beside = b;
        let mut part = n - j;
        while i < n {
            let compared = words::compare(&row[from..from + part], &row[beside..beside + part]);
            let order = compared.order;
            match order {
                Ordering::Greater => {
                    continue 'rotations;
                }
                Ordering::Less => {
                    b = j;
                    continue 'rotations;
                }
                Ordering::Equal => {}
            }
            // its head, as far as the rotation by b goes on in the row without a break
            i += part;
            from = i - (n - j);
            beside = if i < n - b { b + i } else { i - (n - b) };
            part = if i < n - b { n - b - i } else { n - i };
        }
        // the least rotation again: from here on all of them are rotations seen before
        return RowKey {
            rotation: b,
            period: j - b,
        };
    }
    RowKey {
        rotation: b,
        period: n,
    }
}

// Writes the rotation by j to the front of `out`: the tail of the row from place j on, then its head.
pub fn write_rotation(row: &[u8], j: usize, out: &mut [u8])
    requires { (j ≤ length row.now) × (length row.now ≤ length out.old) }
    ensures { out.new ≡ fronted (rotation j row.now) out.old }
{
    let tail = row.len() - j;
    words::inner::write_front(&row[j..], out);
    words::inner::write_front(&row[..j], &mut out[tail..]);
}
