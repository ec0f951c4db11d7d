// The lines of a text and the words of a line.
ghost use Rattle.std.specs.Prelude.{◌≡◌, ℕ, ◌<◌, ◌==◌, length, position, IfOk, slice_index_or, ◌↔◌, IsErrOf};
ghost use Rattle.std.specs.Str.{IsUtf8};
ghost use Rattle.job_words.specs.declared.lines.Unread.TheVariants.{NoMemory};
ghost use Rattle.job_words.specs.Lines.{Line};

use std::alloc::{AllocError, AllocFailed, Global};
use std::str::from_utf8;

// Why a line has no words.
#[derive(Clone, Copy)]
pub enum Unread {
    NotText,
    NoMemory,
}

impl From<AllocError> for Unread {
    ghost from_gives = { λ _ e. e ≡ NoMemory };

    fn from(_e: AllocError) -> Unread {
        Unread::NoMemory
    }
}

impl<T: Drop> From<AllocFailed<T>> for Unread {
    ghost from_gives = { λ _ e. e ≡ NoMemory };

    fn from(_e: AllocFailed<T>) -> Unread {
        Unread::NoMemory
    }
}

// The words of a line, without what follows a `#`. None is empty, and a line has none where it is no text or memory
// runs out.
pub fn words<'a>(heap: Global, line: &'a [u8]) -> Result<Vec<&'a str>, Unread>
    ensures text { IsErrOf result Unread.NotText ↔ (IsUtf8 line.now → ⊥) }
    ensures none_empty { IfOk result (λ words. (k : ℕ) (d : _) → k < length words.items → 0 < length (slice_index_or words.items k d).now) }
{
    let text = from_utf8(line).map_err(|_| Unread::NotText)?;
    let said = text.split_once('#').map_or(text, |(before, _)| before);
    let words = said
        .split([' ', '\t', '\r'])
        .filter(|word| !word.is_empty());
    Ok(words.collect(heap)?)
}

// Where the first line feed stands.
fn line_feed(text: &[u8]) -> Option<usize>
    ensures place { result ≡ position (λ byte. byte == 10) text.now }
{
    text.iter().position(|&byte| byte == b'\n')
}

// The first line of a text, and what follows its line feed.
#[tactic(auto, using(crate::proofs::Cutting::line_at, crate::proofs::Cutting::line_all))]
pub fn first_line(text: &[u8]) -> (&[u8], &[u8])
    ensures line { Line text.now result.0.now result.1.now }
    ensures shorter { 0 < length text.now → length result.1.now < length text.now }
{
    match line_feed(text) {
        Some(len) => (&text[..len], &text[len + 1..]),
        None => (text, &[]),
    }
}
