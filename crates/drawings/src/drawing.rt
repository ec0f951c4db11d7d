// The type of drawings. No value of it breaks a rule.
ghost use Rattle.std.specs.Prelude.{◌≡◌, ℕ, ◌/◌, ◌%◌, ◌<◌, length, slice_index};
ghost use Rattle.drawing_parts.specs.Parts.{Drawable, WithinShare, elements_of};

pub mod ask;
mod blocks;
mod cells;
pub mod make;
mod packages;
pub mod parts;

use drawing_parts::Lines;
use layouts::Layout;
use overlays::Operation;

// The public fields are as the drawing was made, and whoever writes one owes every rule below.
// `packages` has for each sender, sixteen numbers apart, and each role the number of elements that the
// sender sends for the role. The memory is fixed: no heap.
#[derive(Clone, Copy)]
pub struct Drawing {
    pub operation: Operation,
    pub target: Layout,
    pub source: Layout,
    pub source_share: usize,
    pub target_share: usize,
    row_lines: Lines,
    column_lines: Lines,
    packages: [u32; 256],
    ghost drawable: { Drawable operation target source row_lines column_lines },
    ghost lent: { WithinShare source source_share },
    ghost kept: { WithinShare target target_share },
    ghost sized: { length packages ≡ 256 },
    ghost packed: { (p : ℕ) → p < 256 → slice_index packages p ≡ elements_of operation target source (p / 16) (p % 16) },
}
