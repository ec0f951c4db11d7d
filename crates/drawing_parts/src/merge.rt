// The lines of one side of the target.
ghost use Rattle.drawing_parts.specs.Parts.{Ruled};
ghost use Rattle.splits.specs.Splits.{Cuts};

use crate::lines::{Line, Lines};

// The lines of a side of this size that the target and the source cut at these splits.
pub(crate) fn merge(size: u16, target: &[u16], source: &[u16]) -> Lines
    requires target_cuts { Cuts size target.now }
    requires source_cuts { Cuts size source.now }
    ensures { Ruled size target.now source.now result }
{
    let mut line = Line {
        at: 0,
        target: 0,
        source: 0,
    };
    let mut lines = [line; 64];
    let mut spans = 0;
    // The count of the lines is a part of the result, so no iterator keeps it.
    while line.at < size {
        line = line.next(target, source);
        spans += 1;
        lines[spans] = line;
    }
    Lines { spans, lines }
}
