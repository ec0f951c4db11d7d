// Filling, reading and emptying an inbox.
ghost use Rattle.std.specs.Prelude.{◌≡◌, ℕ, ◌≤◌, [], ◌∷◌, ◌++◌, length, take, drop};
ghost use Rattle.links.specs.Frames.{none_waits};
ghost use Rattle.crossbars.specs.Crossbars.{content};

use crate::inbox::Inbox;
use links::link::MOST_WORDS;

impl Inbox {
    pub(crate) fn empty() -> Self
        ensures { content result ≡ [] }
    {
        Inbox {
            words: [0; MOST_WORDS],
            used: 0,
        }
    }

    pub(crate) fn is_empty(&self) -> bool
        ensures { result ≡ none_waits (content self.now) }
    {
        self.used == 0
    }

    pub(crate) fn fill(&mut self, frame: &[u32])
        requires { (1 ≤ length frame.now) × (length frame.now ≤ 64) }
        ensures { content self.new ≡ frame.now ∷ [] }
    {
        let len = frame.len();
        self.words[0..len].copy_from_slice(frame);
        self.used = len;
    }

    // Copies the frame to the front of the buffer.
    pub(crate) fn copy_to(&self, buffer: &mut [u32]) -> usize
        requires { 64 ≤ length buffer.old }
        ensures size { result ≡ self.now.used }
        ensures copied { buffer.new ≡ take result self.now.words ++ drop result buffer.old }
    {
        let len = self.used;
        buffer[..len].copy_from_slice(&self.words[..len]);
        len
    }

    pub(crate) fn clear(&mut self)
        ensures { content self.new ≡ [] }
    {
        self.used = 0;
    }
}
