// Ranks by counting: necklaces by the Lyndon words that they repeat, and these by the rows of their length. Nothing is
// walked.
ghost use Rattle.std.specs.Prelude.{true, ◌≡◌, length, take};
ghost use Rattle.density.specs.Ranks.{necklace_at, rank, ring_count};
ghost use Rattle.lyndon_below.specs.InnerTables.{Given};
ghost use Rattle.ranking.specs.Answers.{is_counted};
ghost use Rattle.ranking.specs.InnerRanks.{Counted, Seats};

use lyndon_below::tables::Tables;

// The rank of a row, of kind 1 or 2.
pub fn rank_with(tables: &mut Tables<'_>, w: &[u8], d: usize, kind: u8) -> u64
    requires { Given w.now d × (is_counted kind ≡ true) }
    ensures { result ≡ rank (length w.now) d kind w.now }
{
    let n = w.len();
    let words = lyndon_below::count_all(tables, w, d);
    if kind == 1 {
        return lyndon_below::common_sum(&words, n, d);
    }
    words[n]
}

// The rank of a row, of kind 1 or 2.
pub fn rank_of(w: &[u8], d: usize, kind: u8) -> u64
    requires { Given w.now d × (is_counted kind ≡ true) }
    ensures { result ≡ rank (length w.now) d kind w.now }
{
    let ways = pascal::triangle();
    let mut blocks = [0u64; rows_above::TABLE_SIZE];
    let mut tables = Tables {
        ways: &ways,
        blocks: &mut blocks,
    };
    rank_with(&mut tables, w, d, kind)
}

// How many rings a drawer has, of kind 1 or 2: the rank of its highest row, of ones.
pub fn total(tables: &mut Tables<'_>, n: usize, d: usize, kind: u8) -> u64
    requires { Counted n d kind }
    ensures { result ≡ ring_count n d kind }
{
    let ones = [1u8; refusal::MOST_STATIONS];
    rank_with(tables, &ones[..n], d, kind)
}

// The ring at a seat: the least row whose rank is not below it, its symbols fixed one by one.
pub fn necklace_at(
    tables: &mut Tables<'_>,
    n: usize,
    d: usize,
    kind: u8,
    seat: u64,
) -> [u8; refusal::MOST_STATIONS]
    requires { Seats n d kind seat }
    ensures { take n result ≡ necklace_at n d kind seat }
{
    let mut row = [1u8; refusal::MOST_STATIONS];
    for i in 0..n {
        row[i] = 0;
        let rank = rank_with(tables, &row[..n], d, kind);
        if rank < seat {
            row[i] = 1;
        }
    }
    row
}
