// Questions about a layout and its blocks.
ghost use Rattle.std.specs.Prelude.{◌≡◌, ◌*◌, ◌<◌, true};
ghost use Rattle.faults.specs.Answers.{Answers};
ghost use Rattle.layouts.specs.Asking.{IsBlock, IsCover, block_refusal, board_refusal, element_refusal, letter_of};
ghost use Rattle.layouts.specs.Layouts.{LawsOf, column_cuts, grid_of, row_cuts, total_of};
ghost use Rattle.splits.specs.Blocks.{column_blocks, row_blocks};

use crate::layout::Layout;
use faults::{Call, Cause, Fault, Layer};
use layout_parts::Block;
use splits::Order;
use splits::cuts::covering_block;

impl Layout {
    // The block of this number, which the layout has.
    pub(crate) fn block_at(&self, number: usize) -> Block
        requires { number < self.now.row_blocks * self.now.column_blocks }
        ensures { IsBlock self.now number result }
    {
        let tables = &self.tables;
        let (i, j) = (number / self.column_blocks, number % self.column_blocks);
        let top = tables.row_splits[i] as usize;
        let left = tables.column_splits[j] as usize;
        Block {
            top,
            left,
            height: tables.row_splits[i + 1] as usize - top,
            width: tables.column_splits[j + 1] as usize - left,
            owner: tables.owners[number] as usize,
            start: tables.starts[number] as usize,
        }
    }

    pub fn boards(&self) -> usize
        ensures value { result ≡ self.now.boards }
    {
        self.boards
    }

    pub fn rows(&self) -> usize
        ensures value { result ≡ self.now.rows }
    {
        self.rows
    }

    pub fn columns(&self) -> usize
        ensures value { result ≡ self.now.columns }
    {
        self.columns
    }

    pub fn order(&self) -> Order
        ensures value { result ≡ self.now.order }
    {
        self.order
    }

    // The letter of the order inside a block.
    pub fn letter(&self) -> char
        ensures value { result ≡ letter_of self.now.order }
    {
        char::from(self.order)
    }

    // The number of blocks from top to bottom.
    pub fn row_blocks(&self) -> usize
        ensures value { result ≡ row_blocks (grid_of self.now) }
    {
        self.row_blocks
    }

    // The number of blocks from left to right.
    pub fn column_blocks(&self) -> usize
        ensures value { result ≡ column_blocks (grid_of self.now) }
    {
        self.column_blocks
    }

    pub fn row_splits(&self) -> &[u16]
        ensures value { result.now ≡ row_cuts self.now }
    {
        &self.tables.row_splits[0..self.row_blocks + 1]
    }

    pub fn column_splits(&self) -> &[u16]
        ensures value { result.now ≡ column_cuts self.now }
    {
        &self.tables.column_splits[0..self.column_blocks + 1]
    }

    // Names the laws of blocks and places, of this layout. It answers true.
    pub fn laws_stand(&self) -> bool
        ensures value { result ≡ true }
        ensures laws { LawsOf self.now }
    {
        true
    }

    // How many elements the board's blocks have in all.
    pub fn total(&self, board: usize) -> Result<usize, Fault>
        ensures cases { Answers Layer.Layouts Call.Ask (board_refusal self.now board) result (λ v. v ≡ total_of self.now board) (Unit {0}) }
    {
        if board >= self.boards {
            return Err(Fault::new(Layer::Layouts, Call::Ask, Cause::Board { number: board }));
        }
        Ok(self.tables.totals[board] as usize)
    }

    // The block that covers the element.
    pub fn cover(&self, row: usize, column: usize) -> Result<usize, Fault>
        ensures cases { Answers Layer.Layouts Call.Ask (element_refusal self.now row column) result (λ v. IsCover self.now row column v) (Unit {0}) }
    {
        if row >= self.rows || column >= self.columns {
            return Err(Fault::new(Layer::Layouts, Call::Ask, Cause::Beyond { index: 0 }));
        }
        let down = covering_block(self.row_splits(), row);
        let across = covering_block(self.column_splits(), column);
        Ok(down * self.column_blocks + across)
    }

    // The block of this number; blocks are numbered row by row.
    pub fn block(&self, number: usize) -> Result<Block, Fault>
        ensures cases { Answers Layer.Layouts Call.Ask (block_refusal self.now number) result (λ v. IsBlock self.now number v) (Unit {0}) }
    {
        if number >= self.row_blocks * self.column_blocks {
            return Err(Fault::new(Layer::Layouts, Call::Ask, Cause::Beyond { index: 0 }));
        }
        Ok(self.block_at(number))
    }
}
