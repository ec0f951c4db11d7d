// A plan. Lines past the count of boards are blank, so that two plans with the same sheet are the same value.
ghost use Rattle.std.specs.Prelude.{◌≡◌, ℕ, ◌≤◌, length, slice_index_or};
ghost use Rattle.sheets.specs.Lines.{blank};

use sheets::Line;
use sheets::limits::BOARDS;

// Whoever writes a public field owes the rules below. The lines are an array, since a plan allocates nothing.
#[derive(Clone, Copy)]
pub struct Plan {
    pub boards: usize,
    pub bill: u64,
    pub(crate) lines: [Line; BOARDS],
    ghost sized: { length lines ≡ 16 },
    ghost rest: { (x : ℕ) → boards ≤ x → slice_index_or lines x blank ≡ blank },
}
