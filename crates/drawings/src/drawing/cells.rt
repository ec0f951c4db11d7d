// The cells of a drawing, from which its answers and its packages are read.
ghost use Rattle.drawing_parts.specs.Parts.{Drawable};

use drawing_parts::Lines;
use layouts::Layout;
use overlays::Operation;

// A target and a source that fits it under the operation, and the lines that cut the target's rows and columns.
#[derive(Clone, Copy)]
pub(crate) struct Cells<'a> {
    pub(crate) operation: Operation,
    pub(crate) target: &'a Layout,
    pub(crate) source: &'a Layout,
    pub(crate) rows: &'a Lines,
    pub(crate) columns: &'a Lines,
    ghost drawable: { Drawable operation target.now source.now rows.now columns.now },
}
