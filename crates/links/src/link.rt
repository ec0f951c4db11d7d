// The trait of what carries frames between boards.
ghost use Rattle.std.specs.Prelude.{◌≡◌, ℕ, ◌<◌, Bool, true, List};
ghost use Rattle.links.specs.Calls.{Put, Look, Drop};
ghost use Rattle.links.specs.Frames.{Frames, Quiet};

use faults::Fault;

// The most boards that a link serves, and the most words that a frame has.
pub const MOST_BOARDS: usize = 16;

pub const MOST_WORDS: usize = 64;

pub trait Link {
    // The count of boards.
    ghost boards: { Self → ℕ };

    // The frames that wait for a board, oldest first.
    ghost waiting: { Self → ℕ → List (List ℕ) };

    // Whether a board is open: takes a frame now.
    ghost ready: { Self → ℕ → Bool };

    fn board_count(&self) -> usize
        ensures value { result ≡ boards self.now };

    // Appends a frame of 1 to 64 words to the list of an open board.
    fn put(&mut self, board: usize, frame: &[u32]) -> Result<(), Fault>
        ensures answer { Put boards waiting ready self.old board frame.now result self.new };

    // Copies the oldest frame to the front of a buffer of at least 64 words, and answers its length.
    fn look(&self, board: usize, buffer: &mut [u32]) -> Result<usize, Fault>
        ensures answer { Look boards waiting self.now board buffer.old result buffer.new };

    // Removes the oldest frame.
    fn discard(&mut self, board: usize) -> Result<(), Fault>
        ensures answer { Drop boards waiting self.old board result self.new };

    ghost framed: { (s : Self) (k : ℕ) → Frames (waiting s k) };

    ghost opens: { (s : Self) → Quiet (boards s) (waiting s) → (k : ℕ) → k < boards s → ready s k ≡ true };
}
