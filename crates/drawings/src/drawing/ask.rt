// Questions about a drawing, its cells and its packages.
ghost use Rattle.std.specs.Prelude.{◌≡◌, ◌+◌, ◌*◌, ◌<◌, true};
ghost use Rattle.faults.specs.Answers.{Answers};
ghost use Rattle.drawings.specs.Asking.{IsCell, IsCover, board_cause, board_refusal, cell_refusal};
ghost use Rattle.drawings.specs.Cells.{overlaid};
ghost use Rattle.drawings.specs.Drawings.{LawsOf, cells, overlay_of, package_of};
ghost use Rattle.overlays.specs.Packages.{bytes};

use crate::drawing::Drawing;
use crate::drawing::cells::Cells;
use drawing_parts::Cell;
use faults::{Call, Cause, Fault, Layer};

impl Drawing {
    fn cells(&self) -> Cells<'_>
        ensures overlay { overlaid result ≡ overlay_of self.now }
        ensures lines { (result.rows.now ≡ self.now.row_lines) × (result.columns.now ≡ self.now.column_lines) }
    {
        Cells {
            operation: self.operation,
            target: &self.target,
            source: &self.source,
            rows: &self.row_lines,
            columns: &self.column_lines,
        }
    }

    // The row and the column of cells in which the cell of this number stands.
    fn place(&self, call: Call, cell: usize) -> Result<(usize, usize), Fault>
        ensures { Answers Layer.Drawings call (cell_refusal self.now cell) result (λ v. (v.0 < self.now.row_lines.spans) × (v.1 < self.now.column_lines.spans) × (v.0 * self.now.column_lines.spans + v.1 ≡ cell)) (Unit {0}) }
    {
        if cell >= self.cell_count() {
            return Err(Fault::new(Layer::Drawings, call, Cause::Beyond { index: 0 }));
        }
        let across = self.column_lines.spans;
        Ok((cell / across, cell % across))
    }

    fn check_board(&self, number: usize) -> Result<(), Fault>
        ensures { Answers Layer.Drawings Call.Ask (board_cause self.now number) result (λ _. number < self.now.target.boards) (Unit {0}) }
    {
        if number < self.target.boards {
            Ok(())
        } else {
            Err(Fault::new(Layer::Drawings, Call::Ask, Cause::Board { number }))
        }
    }

    // The number of cells, which are numbered row by row.
    pub fn cell_count(&self) -> usize
        ensures value { result ≡ cells self.now }
    {
        self.row_lines.spans * self.column_lines.spans
    }

    // Names the laws of cells and packages, of this drawing. It answers true.
    pub fn laws_stand(&self) -> bool
        ensures value { result ≡ true }
        ensures laws { LawsOf self.now }
    {
        true
    }

    // The blocks of the target and of the source, in their own grids, that the cell lies in.
    pub fn cover(&self, cell: usize) -> Result<(usize, usize), Fault>
        ensures cases { Answers Layer.Drawings Call.Cover (cell_refusal self.now cell) result (λ v. IsCover self.now cell v.0 v.1) (Unit {0}) }
    {
        let (i, j) = self.place(Call::Cover, cell)?;
        Ok(self.cells().blocks(i, j))
    }

    // The cell's box, role and sender.
    pub fn cell(&self, cell: usize) -> Result<Cell, Fault>
        ensures cases { Answers Layer.Drawings Call.Ask (cell_refusal self.now cell) result (λ v. IsCell self.now cell v) (Unit {0}) }
    {
        let (i, j) = self.place(Call::Ask, cell)?;
        Ok(self.cells().cell(i, j))
    }

    // How many elements the sender sends for the role.
    pub fn package_elements(&self, sender: usize, role: usize) -> Result<usize, Fault>
        ensures cases { Answers Layer.Drawings Call.Ask (board_refusal self.now sender role) result (λ v. v ≡ package_of self.now sender role) (Unit {0}) }
    {
        self.check_board(sender)?;
        self.check_board(role)?;
        Ok(self.packages[sender * 16 + role] as usize)
    }

    // How many bytes the sender sends for the role, for elements of so many words.
    pub fn package_bytes(&self, sender: usize, role: usize, words: u8) -> Result<usize, Fault>
        ensures cases { Answers Layer.Drawings Call.Ask (board_refusal self.now sender role) result (λ v. v ≡ bytes (package_of self.now sender role) words) (Unit {0}) }
    {
        Ok(self.package_elements(sender, role)? * words as usize * 4)
    }
}
