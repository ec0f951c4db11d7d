// The lines that cut one side of the target into cells.
ghost use Rattle.std.specs.Prelude.{◌≡◌, ◌+◌, ◌<◌, ◌≤◌, length, min, if◌then◌else◌, nat_eq, slice_index};

// Where a line cuts the side, and the blocks of the target's splits and of the source's splits along the same
// side that lie behind it.
#[derive(Clone, Copy)]
pub struct Line {
    pub at: u16,
    pub target: u8,
    pub source: u8,
}

// There is one line more than there are spans, and what stands past the lines is never read. The memory is
// fixed: no heap.
#[derive(Clone, Copy)]
pub struct Lines {
    pub spans: usize,
    pub lines: [Line; 64],
}

impl Line {
    // The next line, at the nearer of the ends of the two blocks.
    pub(crate) fn next(self, target: &[u16], source: &[u16]) -> Line
        requires inside { (self.target + 1 < length target.now) × (self.source + 1 < length source.now) }
        requires short { (length target.now ≤ 33) × (length source.now ≤ 33) }
        ensures at { result.at ≡ min (slice_index target.now (self.target + 1)) (slice_index source.now (self.source + 1)) }
        ensures target { result.target ≡ (if nat_eq (slice_index target.now (self.target + 1)) result.at then self.target + 1 else self.target) }
        ensures source { result.source ≡ (if nat_eq (slice_index source.now (self.source + 1)) result.at then self.source + 1 else self.source) }
    {
        let target_end = target[self.target as usize + 1];
        let source_end = source[self.source as usize + 1];
        let at = target_end.min(source_end);
        Line {
            at,
            target: self.target + (target_end == at) as u8,
            source: self.source + (source_end == at) as u8,
        }
    }
}
