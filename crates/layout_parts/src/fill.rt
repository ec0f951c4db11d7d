// The tables of a layout.
ghost use Rattle.std.specs.Prelude.{◌≡◌, ℕ, ◌+◌, ◌-◌, ◌*◌, ◌^◌, ◌<◌, ◌≤◌, length, take, drop, replicate, slice_index};
ghost use Rattle.layout_parts.specs.Given.{checked_grid};
ghost use Rattle.layout_parts.specs.Making.{Filled};
ghost use Rattle.splits.specs.Blocks.{blocks};
ghost use Rattle.splits.specs.Places.{room, start, total};

use crate::given::Checked;
use crate::parts::{BLOCKS, BOARDS, Parts, Tables};

// A table that begins with the items and is blank after them.
fn table<T: Copy, const N: usize>(items: &[T], blank: T) -> [T; N]
    requires { length items.now ≤ N }
    ensures items { take (length items.now) result ≡ items.now }
    ensures rest { drop (length items.now) result ≡ replicate (N - length items.now) blank }
    ensures len { length result ≡ N }
{
    let mut table = [blank; N];
    table[..items.len()].copy_from_slice(items);
    table
}

impl Checked<'_> {
    // How many places block `b` takes.
    fn block_room(self, b: usize) -> usize
        requires { b < blocks (checked_grid self) }
        ensures { result ≡ room (checked_grid self.entry) b }
    {
        let (rows, columns) = (self.given.row_splits, self.given.column_splits);
        let across = columns.len() - 1;
        let (i, j) = (b / across, b % across);
        let height = (rows[i + 1] - rows[i]) as usize;
        let width = (columns[j + 1] - columns[j]) as usize;
        self.order.lines(height, width) * self.order.pitch(height, width)
    }

    // For each block how far from the beginning of its owner's part it begins, and for each board how many
    // elements its blocks have in all.
    #[tactic(auto, using(crate::proofs::Checked::board))]
    fn tally(self) -> ([u32; BLOCKS], [u32; BOARDS])
        ensures starts { (b : ℕ) → b < length self.entry.given.owners.now → slice_index result.0 b ≡ start (checked_grid self.entry) b }
        ensures rest { (b : ℕ) → length self.entry.given.owners.now ≤ b → slice_index result.0 b ≡ 0 }
        ensures totals { (p : ℕ) → p < 16 → slice_index result.1 p ≡ total (checked_grid self.entry) p }
        ensures len { (length result.0 ≡ 1024) × (length result.1 ≡ 16) }
    {
        let mut starts = [0; BLOCKS];
        let mut totals = [0; BOARDS];
        for (b, owner) in self.given.owners.iter().enumerate() {
            let owner = *owner as usize;
            starts[b] = totals[owner];
            totals[owner] += self.block_room(b) as u32;
        }
        (starts, totals)
    }

    // The tables of what is checked.
    pub(crate) fn fill(self) -> Parts
        ensures { Filled self.entry.order self.entry.given.boards self.entry.given.rows self.entry.given.columns self.entry.given.row_splits.now self.entry.given.column_splits.now self.entry.given.owners.now result }
    {
        let given = self.given;
        let (starts, totals) = self.tally();
        Parts {
            order: self.order,
            row_blocks: given.row_splits.len() - 1,
            column_blocks: given.column_splits.len() - 1,
            tables: Tables {
                row_splits: table(given.row_splits, 0),
                column_splits: table(given.column_splits, 0),
                owners: table(given.owners, 0),
                starts,
                totals,
            },
        }
    }
}
