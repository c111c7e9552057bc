// Seat numbers: the rank of a row among the rings of a drawer and kind, and the ring of a rank.
#![tactic(auto)]

pub mod inner;

ghost use Rattle.std.specs.Prelude.{◌≡◌, length};
ghost use Rattle.density.specs.Necklaces.{is_kind};
ghost use Rattle.density.specs.Ranks.{necklace_at, rank};
ghost use Rattle.ranking.specs.Answers.{is_counted, rank_verdict, unrank_verdict};
ghost use Rattle.refusal.specs.Outcomes.{decide, filled};

use density::drawers::{check_drawer, check_opening};
use lyndon_below::tables::Tables;
use refusal::Refusal;

// A kind that is counted, and for any other a number that is no kind.
fn counted(kind: u8) -> u8
    ensures { is_kind result ≡ is_counted kind }
{
    if kind <= 2 { kind } else { 0 }
}

// The seat of a row: how many rings of the drawer and kind lie at or below it.
pub fn rank(n: usize, d: usize, kind: u8, row: &[u8]) -> Result<u64, Refusal>
    ensures { result ≡ decide (rank_verdict n d kind row.now) (rank n d kind row.now) }
{
    check_opening(n, d, counted(kind), row)?;
    Ok(inner::rank_of(row, d, kind))
}

// Writes the ring at a seat, 1 being the lowest, to the front of the buffer.
pub fn unrank(n: usize, d: usize, kind: u8, seat: u64, out: &mut [u8]) -> Result<(), Refusal>
    ensures answer { result ≡ decide (unrank_verdict n d kind seat (length out.old)) tt }
    ensures buffer { out.new ≡ filled (unrank_verdict n d kind seat (length out.old)) (necklace_at n d kind seat) out.old }
{
    check_drawer(n, d, counted(kind))?;
    if out.len() < n {
        return Err(Refusal::Buffer);
    }
    let ways = pascal::triangle();
    let mut blocks = [0u64; rows_above::TABLE_SIZE];
    let mut tables = Tables {
        ways: &ways,
        blocks: &mut blocks,
    };
    let total = inner::total(&mut tables, n, d, kind);
    if seat < 1 || total < seat {
        return Err(Refusal::Seat);
    }
    let ring = inner::necklace_at(&mut tables, n, d, kind, seat);
    words::inner::write_front(&ring[..n], out);
    Ok(())
}
