// A cell, its blocks and their owners, read off the tables.
ghost use Rattle.std.specs.Prelude.{◌≡◌, ◌+◌, ◌*◌, ◌<◌, ◌≤◌};
ghost use Rattle.drawings.specs.Cells.{IsCellOf, overlaid};
ghost use Rattle.layouts.specs.Layouts.{blocks_of, owner_of};
ghost use Rattle.overlays.specs.Overlays.{role, sender, source_block, target_block};

use crate::drawing::cells::Cells;
use drawing_parts::Cell;
use layouts::Layout;

// The board that owns the block.
fn owner_at(layout: &Layout, block: usize) -> usize
    requires { block < blocks_of layout.now }
    ensures { result ≡ owner_of layout.now block }
{
    layout.block(block).unwrap().owner
}

impl Cells<'_> {
    // The blocks of the target and of the source that the cell in row `i` and column `j` of cells lies in.
    pub(crate) fn blocks(&self, i: usize, j: usize) -> (usize, usize)
        requires inside { (i < self.now.rows.now.spans) × (j < self.now.columns.now.spans) }
        ensures target { result.0 ≡ target_block (overlaid self.now) (i * self.now.columns.now.spans + j) }
        ensures source { result.1 ≡ source_block (overlaid self.now) (i * self.now.columns.now.spans + j) }
    {
        let (rows, columns) = (&self.rows.lines, &self.columns.lines);
        let (x, y) = (rows[i].source as usize, columns[j].source as usize);
        let down = self.operation.turned(x, y);
        let across = self.operation.turned(y, x);
        (
            rows[i].target as usize * self.target.column_blocks + columns[j].target as usize,
            down * self.source.column_blocks + across,
        )
    }

    // The sender and the role of the cell in row `i` and column `j` of cells.
    pub(crate) fn owners(&self, i: usize, j: usize) -> (usize, usize)
        requires inside { (i < self.now.rows.now.spans) × (j < self.now.columns.now.spans) }
        ensures bound { (result.0 < 16) × (result.1 < 16) }
        ensures sender { result.0 ≡ sender (overlaid self.now) (i * self.now.columns.now.spans + j) }
        ensures role { result.1 ≡ role (overlaid self.now) (i * self.now.columns.now.spans + j) }
    {
        let (target, source) = self.blocks(i, j);
        let sender = owner_at(self.source, source);
        let role = owner_at(self.target, target);
        (sender, role)
    }

    // The cell in row `i` and column `j` of cells.
    pub(crate) fn cell(&self, i: usize, j: usize) -> Cell
        requires inside { (i < self.now.rows.now.spans) × (j < self.now.columns.now.spans) }
        ensures bound { (result.sender < 16) × (result.role < 16) × (result.height * result.width ≤ 1048576) }
        ensures cell { IsCellOf (overlaid self.now) (i * self.now.columns.now.spans + j) result }
    {
        let top = self.rows.lines[i].at;
        let left = self.columns.lines[j].at;
        let (sender, role) = self.owners(i, j);
        Cell {
            top: top as usize,
            left: left as usize,
            height: (self.rows.lines[i + 1].at - top) as usize,
            width: (self.columns.lines[j + 1].at - left) as usize,
            role,
            sender,
        }
    }
}
