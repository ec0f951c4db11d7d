// A link that keeps the waiting frames of all boards in one list of words.
ghost use Rattle.std.specs.Prelude.{◌≡◌, ℕ, ◌≤◌, true, length, take, vec_len};
ghost use Rattle.buses.specs.Entries.{laid, entries, lawful};

use faults::Fault;
use links::link::MOST_WORDS;

// The words of the longest frame behind its receiver and its length.
pub const MOST_ENTRY: usize = MOST_WORDS + 2;

#[derive(Drop)]
pub struct Bus {
    boards: usize,
    words: Vec<u32>,
    // How many words the entries take, from the front of the list: a count beside it, since the list keeps its length and
    // `into_words` gives it back whole.
    used: usize,
    ghost within: { boards ≤ 16 },
    ghost room: { 66 ≤ vec_len words },
    ghost fits: { used ≤ vec_len words },
    ghost kept: { laid (entries (take used words.items)) ≡ take used words.items },
    ghost legal: { lawful boards (entries (take used words.items)) ≡ true },
}

// What a refused making of a bus hands back.
#[derive(Drop)]
pub struct Refusal {
    pub words: Vec<u32>,
    pub fault: Fault,
}

pub mod shared;
