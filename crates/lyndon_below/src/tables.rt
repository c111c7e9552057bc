// The tables that rows are counted with.
ghost use Rattle.std.specs.Prelude.{◌≡◌, length, suc};
ghost use Rattle.pascal.specs.Pascal.{last_row, triangle};
ghost use Rattle.rows_above.specs.InnerTables.{table_size};

// The ways to choose, and a table of blocks, in which what it holds does not matter. Both are lent: a struct of the
// arrays themselves would be copied as it is made.
#[derive(Drop)]
pub struct Tables<'a> {
    pub ways: &'a [u64; pascal::ENTRIES],
    pub blocks: &'a mut [u64; rows_above::TABLE_SIZE],
    ghost chosen: { ways.now ≡ triangle (suc last_row) },
    ghost sized: { length blocks.now ≡ table_size },
}
