// One board's inbox: at most one frame.
ghost use Rattle.std.specs.Prelude.{◌≡◌, ℕ, ◌≤◌, length};

use links::link::MOST_WORDS;

// No `ArrayVec`, which writes over its words when it is emptied: here a frame goes by one store.
#[derive(Clone, Copy)]
pub(crate) struct Inbox {
    words: [u32; MOST_WORDS],
    // How many words the frame has; 0 where the inbox is empty.
    used: usize,
    ghost fits: { used ≤ 64 },
    ghost sized: { length words ≡ 64 },
}

pub mod access;
