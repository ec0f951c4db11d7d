// The packages of a role, one from each sender.
ghost use Rattle.std.specs.Prelude.{◌≡◌, ℕ, ◌≤◌, length, slice_index};
ghost use Rattle.tariffs.specs.Questions.{most_bytes};

// The bytes of board i's package stand at i.
#[derive(Clone, Copy)]
pub(crate) struct Packages {
    pub(crate) bytes: [usize; 16],
    ghost sized: { length bytes ≡ 16 },
    ghost capped: { (i : ℕ) → slice_index bytes i ≤ most_bytes },
}
