// The next run of a sender that is wanted.
ghost use Rattle.std.specs.Prelude.{◌≡◌, ◌+◌, ◌<◌, ◌≤◌, ◌&&◌, MatchOption, nat_lt};
ghost use Rattle.cursors.specs.Cursors.{admits, bounded};
ghost use Rattle.cursors.specs.Steps.{Found, NoneWanted, On, Whole, advance, run_at};
ghost use Rattle.runs.specs.Runs.{pieces};

use crate::cursor::{Cursor, Run, Wanted};
use drawings::{Cell, Drawing};

// The most elements of a run: one for each word that a frame has for elements.
pub const LONGEST: usize = 60;

impl Cursor {
    // The cursor before the first run.
    pub fn start() -> Cursor
        ensures value { result ≡ record { cell = 0; row = 0; piece = 0 } }
        ensures whole { Whole result }
    {
        Cursor {
            cell: 0,
            row: 0,
            piece: 0,
        }
    }
}

impl Wanted {
    // Whether runs of this role are wanted.
    pub fn admits(self, role: usize) -> bool
        ensures { result ≡ admits self role }
    {
        match self {
            Wanted::Role(j) => role == j,
            Wanted::Others(j) => role != j,
        }
    }
}

// How many pieces a row of `width` elements is cut into.
fn pieces_of(width: usize, most: usize) -> usize
    requires { 1 ≤ most }
    ensures { result ≡ pieces width most }
{
    width.div_ceil(most)
}

impl Cursor {
    // The beginning of the next cell.
    fn next_cell(self) -> Cursor
        requires { self.cell < 3969 }
        ensures { result ≡ record { cell = self.cell + 1; row = 0; piece = 0 } }
    {
        Cursor {
            cell: self.cell + 1,
            row: 0,
            piece: 0,
        }
    }

    // Whether the cell has the piece that the cursor names.
    fn stands(self, cell: &Cell, most: usize) -> bool
        requires { 1 ≤ most }
        ensures { result ≡ (nat_lt self.row cell.now.height && nat_lt self.piece (pieces cell.now.width most)) }
    {
        self.row < cell.height && self.piece < pieces_of(cell.width, most)
    }

    // The run at a cursor that stands in the cell.
    fn run_at(self, cell: &Cell, most: usize) -> Run
        requires { On cell.now most self }
        ensures { result ≡ run_at cell.now most self }
    {
        let before = self.piece * most;
        Run {
            cell: self.cell,
            row: cell.top + self.row,
            column: cell.left + before,
            count: most.min(cell.width - before),
            role: cell.role,
        }
    }

    // The cursor right behind that run.
    fn advance(self, cell: &Cell, most: usize) -> Cursor
        requires { On cell.now most self }
        ensures { result ≡ advance cell.now most self }
    {
        if self.piece + 1 < pieces_of(cell.width, most) {
            Cursor {
                piece: self.piece + 1,
                ..self
            }
        } else if self.row + 1 < cell.height {
            Cursor {
                row: self.row + 1,
                piece: 0,
                ..self
            }
        } else {
            self.next_cell()
        }
    }
}

// The first run of the sender from the cursor on that is wanted, and the cursor right behind it; or `None`
// where no run that is left is wanted. A run has at most `longest` elements.
// The parameters stay apart: who keeps a cursor keeps none of the others, and names them at each step.
pub fn next(
    drawing: &Drawing,
    longest: usize,
    sender: usize,
    from: Cursor,
    wanted: Wanted,
) -> Option<(Run, Cursor)>
    ensures { MatchOption result (NoneWanted drawing.now (bounded longest) sender from wanted) (λ v. Found drawing.now (bounded longest) sender from wanted v.0 v.1) }
{
    let most = longest.clamp(1, LONGEST);
    let mut at = from;
    // The loop walks the cursor that it hands out, so no range of cells stands beside it.
    while let Ok(cell) = drawing.cell(at.cell) {
        // The sender is asked first: most cells are another's, and to stand in one costs a division.
        if cell.sender == sender && at.stands(&cell, most) && wanted.admits(cell.role) {
            return Some((at.run_at(&cell, most), at.advance(&cell, most)));
        }
        at = at.next_cell();
    }
    None
}
