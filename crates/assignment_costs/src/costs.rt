// A table of costs that keeps the limits.
ghost use Rattle.std.specs.Prelude.{◌≡◌, ℕ, ◌^◌, ◌≤◌, length, slice_index};

pub const MOST_BOARDS: usize = 16;

pub const MOST_COST: u64 = 17_592_186_044_416;

// As many roles as boards. What role x costs on board y stands at x * 16 + y. The memory is fixed: no heap.
#[derive(Clone, Copy)]
pub struct Costs {
    pub boards: usize,
    pub table: [u64; 256],
    ghost some: { 1 ≤ boards },
    ghost most: { boards ≤ 16 },
    ghost sized: { length table ≡ 256 },
    ghost capped: { (k : ℕ) → slice_index table k ≤ 2 ^ 44 },
}
