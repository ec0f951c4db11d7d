// A plain model of a link: every frame that was put and not dropped, in the order of the puts.
ghost use Rattle.std.specs.Prelude.{◌≤◌};

use faults::{Call, Cause, Fault, Layer};
use std::array;

// A frame goes by its number, from which its words follow.
#[derive(Clone, Copy, Drop)]
pub(crate) struct Sent {
    pub board: usize,
    pub number: u32,
}

#[derive(Clone, Copy)]
pub(crate) enum Kind {
    Bus { words: usize },
    Crossbar,
}

pub(crate) fn fault(call: Call, cause: Cause) -> Fault {
    Fault::new(Layer::Links, call, cause)
}

// How many words the frame of a number has: 1 to 64.
pub(crate) fn frame_len(number: u32) -> usize
    ensures within { result ≤ 64 }
{
    1 + (number as usize * 7) % 64
}

pub(crate) fn word(number: u32, i: usize) -> u32 {
    number.wrapping_mul(1000).wrapping_add((i % 64) as u32)
}

// The words of a frame, and more behind them.
pub(crate) fn words_of(number: u32) -> [u32; 64] {
    array::from_fn(|i| word(number, i))
}

// The place of the oldest frame for a board.
pub(crate) fn oldest(sent: &[Sent], board: usize) -> Option<usize> {
    sent.iter().position(|s| s.board == board)
}

// Whether the model's link takes a frame for the board.
pub(crate) fn is_open(kind: Kind, sent: &[Sent], board: usize) -> bool {
    match kind {
        Kind::Bus { words } => {
            let used = sent.iter().fold(
                66,
                |used: usize, s| used.wrapping_add(2 + frame_len(s.number)),
            );
            used <= words
        }
        Kind::Crossbar => oldest(sent, board).is_none(),
    }
}
