// A plan, and what the packages cost under it.
ghost use Rattle.std.specs.Prelude.{◌≡◌, ℕ, ◌<◌, ◌≤◌, length};
ghost use Rattle.settling.specs.Records.{Summed, name_in};

use plans::Plan;

// The price of board i's package for role x stands at i * 16 + x, and 0 elsewhere. The memory is fixed: no heap.
#[derive(Clone, Copy)]
pub struct Settlement {
    pub plan: Plan,
    pub prices: [u64; 256],
    ghost sized: { length prices ≡ 256 },
    ghost counted: { (1 ≤ plan.boards) × (plan.boards ≤ 16) },
    ghost below: { (x : ℕ) → x < plan.boards → name_in plan x < plan.boards },
    ghost apart: { (x y : ℕ) → (x < plan.boards) × (y < plan.boards) × (name_in plan x ≡ name_in plan y) → x ≡ y },
    ghost summed: { Summed plan prices },
}
