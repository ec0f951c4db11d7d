// The entries of a bus's list, over its words.
ghost use Rattle.std.specs.Prelude.{◌≡◌, ℕ, ◌+◌, ◌^◌, ◌<◌, ◌≤◌, [], ◌∷◌, ◌++◌, length, take, drop, MatchOption, slice_index};
ghost use Rattle.buses.specs.Entries.{Whole, Found, addressed, entries};

// Writes an entry from index `at` on.
pub(crate) fn write(words: &mut [u32], at: usize, board: u32, frame: &[u32])
    requires room { at + 2 + length frame.now ≤ length words.old }
    requires fits { length frame.now < 2 ^ 32 }
    ensures { words.new ≡ take at words.old ++ (board ∷ length frame.now ∷ frame.now) ++ drop (at + 2 + length frame.now) words.old }
{
    let len = frame.len();
    words[at] = board;
    words[at + 1] = len as u32;
    let part = &mut words[at + 2..at + 2 + len];
    part.copy_from_slice(frame);
}

// Removes the entry at `at` from the first `used` words, and answers how many are used then. It moves words within one
// list, which parts of the list lent apart could not.
pub(crate) fn remove(words: &mut [u32], used: usize, at: usize) -> usize
    requires used { used ≤ length words.old }
    requires inside { at + 2 + slice_index words.old (at + 1) ≤ used }
    ensures size { result + 2 + slice_index words.old (at + 1) ≡ used }
    ensures after { take result words.new ≡ take at words.old ++ drop (at + 2 + slice_index words.old (at + 1)) (take used words.old) }
{
    let next = at + 2 + words[at + 1] as usize;
    words.copy_within(next..used, at);
    used - (next - at)
}

// Where the first entry for a board begins.
pub(crate) fn find(words: &[u32], board: u32) -> Option<usize>
    requires { (n : ℕ) × Whole n words.now }
    ensures { MatchOption result (addressed board (entries words.now) ≡ []) (λ at. Found board words.now at) }
{
    let mut rest = words;
    while let [receiver, len, behind @ ..] = rest {
        if *receiver == board {
            return Some(words.len() - rest.len());
        }
        rest = &behind[*len as usize..];
    }
    None
}

// Copies the frame of the entry at `at` to the front of a buffer, and answers its length.
pub(crate) fn copy(words: &[u32], at: usize, buffer: &mut [u32]) -> usize
    requires inside { at + 2 + slice_index words.now (at + 1) ≤ length words.now }
    requires room { slice_index words.now (at + 1) ≤ length buffer.old }
    ensures size { result ≡ slice_index words.now (at + 1) }
    ensures copied { buffer.new ≡ take result (drop (at + 2) words.now) ++ drop result buffer.old }
{
    let len = words[at + 1] as usize;
    let part = &mut buffer[0..len];
    part.copy_from_slice(&words[at + 2..at + 2 + len]);
    len
}
