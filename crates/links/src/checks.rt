// The checks that the links share, each with its refusal.
ghost use Rattle.std.specs.Prelude.{◌≡◌, length};
ghost use Rattle.faults.specs.Answers.{Answers};
ghost use Rattle.faults.specs.declared.fault.Call.TheVariants as named;
ghost use Rattle.faults.specs.declared.fault.Layer.TheVariants.{Links};
ghost use Rattle.links.specs.Refusals.{board_refusal, buffer_refusal, crossbar_refusal, frame_refusal};

use crate::link::{MOST_BOARDS, MOST_WORDS};
use faults::{Call, Cause, Fault, Layer};

// Refuses to make a link for a count of boards outside its limits.
pub fn check_count(boards: usize) -> Result<(), Fault>
    ensures answer { Answers Links named.Make (crossbar_refusal boards) result (λ _. Unit {0}) (Unit {0}) }
{
    if boards < 1 || boards > MOST_BOARDS {
        return Err(Fault::new(Layer::Links, Call::Make, Cause::Board { number: boards }));
    }
    Ok(())
}

// Refuses a board that is none of `boards`.
pub fn check_board(call: Call, board: usize, boards: usize) -> Result<(), Fault>
    ensures answer { Answers Links call (board_refusal boards board) result (λ _. Unit {0}) (Unit {0}) }
{
    if board >= boards {
        return Err(Fault::new(Layer::Links, call, Cause::Board { number: board }));
    }
    Ok(())
}

// Refuses to put a frame that has not 1 to 64 words.
pub fn check_frame(frame: &[u32]) -> Result<(), Fault>
    ensures answer { Answers Links named.Put (frame_refusal (length frame.now)) result (λ _. Unit {0}) (Unit {0}) }
{
    if frame.is_empty() || frame.len() > MOST_WORDS {
        return Err(Fault::new(Layer::Links, Call::Put, Cause::Length { due: MOST_WORDS }));
    }
    Ok(())
}

// Refuses to look into a buffer that the longest frame does not fit.
pub fn check_buffer(buffer: &[u32]) -> Result<(), Fault>
    ensures answer { Answers Links named.Look (buffer_refusal (length buffer.now)) result (λ _. Unit {0}) (Unit {0}) }
{
    if buffer.len() < MOST_WORDS {
        return Err(Fault::new(Layer::Links, Call::Look, Cause::Length { due: MOST_WORDS }));
    }
    Ok(())
}
