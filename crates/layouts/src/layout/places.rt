// Where the elements of a layout lie in a bank.
ghost use Rattle.std.specs.Prelude.{◌≡◌, ◌+◌, ◌*◌, ◌<◌, ◌≤◌};
ghost use Rattle.faults.specs.Answers.{Answers};
ghost use Rattle.layouts.specs.Asking.{IsPlace, IsSpot, element_refusal, in_block_refusal};
ghost use Rattle.layouts.specs.Layouts.{cover_of, grid_of};
ghost use Rattle.splits.specs.Blocks.{Covers};
ghost use Rattle.splits.specs.Places.{line, pitch, spot};

use crate::layout::Layout;
use faults::{Call, Cause, Fault, Layer};
use layout_parts::{Block, Spot};
use splits::Order;

// How far from the beginning of its owner's part the element in row `i` and column `j` of the block lies.
fn offset_at(order: Order, block: Block, i: usize, j: usize) -> usize
    requires { (i < block.height) × (j < block.width) × (block.height ≤ 1024) × (block.width ≤ 1024) × (block.start ≤ 1048576) }
    ensures { result ≡ block.start + (line order i j * pitch order block.height block.width + spot order i j) }
{
    block.start + (order.line(i, j) * order.pitch(block.height, block.width) + order.spot(i, j))
}

impl Layout {
    // Where an element lies that block `number` covers.
    fn spot_of(&self, number: usize, row: usize, column: usize) -> Spot
        requires { Covers (grid_of self.now) number row column }
        ensures { IsSpot self.now number row column result }
    {
        let block = self.block_at(number);
        let pitch = self.order.pitch(block.height, block.width);
        Spot {
            owner: block.owner,
            offset: offset_at(self.order, block, row - block.top, column - block.left),
            row_step: self.order.step_along_row(pitch),
            column_step: self.order.step_down_column(pitch),
        }
    }

    // Where an element of block `number` lies. It costs no search for the block, so a run along a row or
    // down a column of the block asks once and goes on by the steps.
    pub fn spot_in(&self, number: usize, row: usize, column: usize) -> Result<Spot, Fault>
        ensures cases { Answers Layer.Layouts Call.Ask (in_block_refusal self.now number row column) result (λ v. IsSpot self.now number row column v) (Unit {0}) }
    {
        if self.block(number)?.covers(row, column) {
            Ok(self.spot_of(number, row, column))
        } else {
            Err(Fault::new(Layer::Layouts, Call::Ask, Cause::Beyond { index: 0 }))
        }
    }

    // Where an element of the matrix lies.
    pub fn spot(&self, row: usize, column: usize) -> Result<Spot, Fault>
        ensures cases { Answers Layer.Layouts Call.Ask (element_refusal self.now row column) result (λ v. IsSpot self.now (cover_of self.now row column) row column v) (Unit {0}) }
    {
        let number = self.cover(row, column)?;
        Ok(self.spot_of(number, row, column))
    }

    // The place of an element in a bank whose parts have `share` elements each, every owner having its own part.
    pub fn place(&self, share: u32, row: usize, column: usize) -> Result<usize, Fault>
        ensures cases { Answers Layer.Layouts Call.Ask (element_refusal self.now row column) result (λ v. IsPlace self.now share row column v) (Unit {0}) }
    {
        let spot = self.spot(row, column)?;
        Ok(spot.owner * share as usize + spot.offset)
    }
}
