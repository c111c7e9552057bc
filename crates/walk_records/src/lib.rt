// Walk records told in numbers, and compared.
#![tactic(auto)]

ghost use Rattle.std.specs.Prelude.{◌≡◌};
ghost use Rattle.words.specs.Order.{same};
ghost use Rattle.walk_records.specs.SameWalks.{same_walk, standing_number, standing_place};

use walk::{Standing, Walk};

// Limit 0, Down 1, Up 2, Given 3, Ended 4.
pub fn standing_number(at: Standing) -> u8
    ensures { result ≡ standing_number at }
{
    match at {
        Standing::Limit => 0,
        Standing::Down(_) => 1,
        Standing::Up(_) => 2,
        Standing::Given => 3,
        Standing::Ended => 4,
    }
}

// The place beside Down and Up, else 0.
pub fn standing_place(at: Standing) -> usize
    ensures { result ≡ standing_place at }
{
    match at {
        Standing::Limit => 0,
        Standing::Down(p) => p,
        Standing::Up(p) => p,
        Standing::Given => 0,
        Standing::Ended => 0,
    }
}

// Whether two rows of records are the same: they differ at no place.
fn same_row(row: &[u8], other: &[u8]) -> bool
    ensures { result ≡ same row.now other.now }
{
    words::compare(row, other).place == 0
}

// Whether two walk records are the same, in every field and byte. Rows are compared by words.
pub fn same_walk(walk: Walk, other: Walk) -> bool
    ensures { result ≡ same_walk walk other }
{
    if walk.n != other.n || walk.d != other.d || walk.kind != other.kind {
        return false;
    }
    if walk.at != other.at {
        return false;
    }
    same_row(&walk.row, &other.row) && same_row(&walk.kept, &other.kept)
}
