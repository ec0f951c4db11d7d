// The type of layouts. No value of it breaks a rule.
ghost use Rattle.std.specs.Prelude.{◌≡◌, ℕ, ◌+◌, ◌*◌, ◌<◌, ◌≤◌, length, take, slice_index};
ghost use Rattle.layout_parts.specs.Tables.{Faultless, table_grid};
ghost use Rattle.splits.specs.Owners.{owner_rule};
ghost use Rattle.splits.specs.Places.{start, total};
ghost use Rattle.splits.specs.Splits.{split_rule};

pub mod ask;
pub mod make;
pub mod places;

use layout_parts::parts::Tables;
use splits::Order;

// The public fields are as the layout was made, and whoever writes one owes every rule below.
// The tables are read in their used parts alone.
#[derive(Clone, Copy)]
pub struct Layout {
    pub boards: usize,
    pub rows: usize,
    pub columns: usize,
    pub order: Order,
    pub row_blocks: usize,
    pub column_blocks: usize,
    tables: Tables,
    ghost counted: { (1 ≤ boards) × (boards ≤ 16) },
    ghost tall: { (1 ≤ rows) × (rows ≤ 1024) },
    ghost wide: { (1 ≤ columns) × (columns ≤ 1024) },
    ghost down: { (1 ≤ row_blocks) × (row_blocks ≤ 32) },
    ghost across: { (1 ≤ column_blocks) × (column_blocks ≤ 32) },
    ghost tabled: { (length tables.row_splits ≡ 33) × (length tables.column_splits ≡ 33) × (length tables.owners ≡ 1024) × (length tables.starts ≡ 1024) × (length tables.totals ≡ 16) },
    ghost rowed: { Faultless (split_rule rows) (take (row_blocks + 1) tables.row_splits) },
    ghost columned: { Faultless (split_rule columns) (take (column_blocks + 1) tables.column_splits) },
    ghost owned: { Faultless (owner_rule (row_blocks * column_blocks) boards) (take (row_blocks * column_blocks) tables.owners) },
    ghost started: { (b : ℕ) → b < row_blocks * column_blocks → slice_index tables.starts b ≡ start (table_grid row_blocks column_blocks tables.row_splits tables.column_splits tables.owners order) b },
    ghost totalled: { (p : ℕ) → p < boards → slice_index tables.totals p ≡ total (table_grid row_blocks column_blocks tables.row_splits tables.column_splits tables.owners order) p },
}
