// The line that tells why a job or a sheet is refused.
use faults::{Bank, Cause, Side};
use std::fmt;

// A cause, and the count of boards of the job, on which the meaning of some values rests.
#[derive(Clone, Copy)]
pub struct Refusal {
    pub cause: Cause,
    pub boards: usize,
}

// The values that a cause returns, each after a blank.
fn write_values<W: fmt::Write>(cause: Cause, f: &mut fmt::Formatter<W>) -> fmt::Result {
    match cause {
        Cause::Letter { code } => write!(f, " {code}"),
        Cause::Board { number } | Cause::Size { number } | Cause::Count { number } => {
            write!(f, " {number}")
        }
        Cause::Splits { side, index } => {
            let code = side as u8;
            write!(f, " {code} {index}")
        }
        Cause::Owners { index } | Cause::Beyond { index } => write!(f, " {index}"),
        Cause::Share { bank, owner } => {
            let code = bank as u8;
            write!(f, " {code} {owner}")
        }
        Cause::State { state } => {
            let code = state as u8;
            write!(f, " {code}")
        }
        Cause::Plan { role } => write!(f, " {role}"),
        Cause::Pass => Ok(()),
        Cause::Length { due } => write!(f, " {due}"),
        Cause::Nothing { board } | Cause::Closed { board } => write!(f, " {board}"),
        Cause::Frame { word } => write!(f, " {word}"),
        Cause::Early { missing } => write!(f, " {missing}"),
        Cause::Field { line, column } => write!(f, " {line} {column}"),
    }
}

// What a cause means for a job of so many boards.
fn write_meaning<W: fmt::Write>(
    cause: Cause,
    boards: usize,
    f: &mut fmt::Formatter<W>,
) -> fmt::Result {
    match cause {
        Cause::Letter { code } => write!(f, "the letter of code {code} names nothing"),
        Cause::Board { number } => write!(f, "{number} is no count of boards and no board"),
        Cause::Size { number } => write!(
            f,
            "the size {number} is outside the limits or does not fit"
        ),
        Cause::Splits { side, index } => write!(f, "{side} splits are wrong at index {index}"),
        Cause::Owners { index } => write!(f, "owners are wrong at index {index}"),
        Cause::Share { bank, owner } if owner == boards => {
            write!(f, "the {bank} share is outside the limits")
        }
        Cause::Share { bank, owner } => {
            write!(f, "the {bank} share is too small for board {owner}")
        }
        Cause::State { state } => write!(f, "the book is {state}"),
        Cause::Count { number } => write!(f, "the tariff or the plan is for {number} boards"),
        Cause::Plan { role } if role == boards => f.write_str(
            "the plan's bill is not its naming's",
        ),
        Cause::Plan { role } => write!(f, "the plan fails at role {role}"),
        Cause::Pass => f.write_str("the lease is of another pass"),
        Cause::Length { due } => write!(f, "the length is not the {due} that is due"),
        Cause::Nothing { board } => write!(f, "nothing waits or is due on board {board}"),
        Cause::Closed { board } => write!(f, "board {board} is not open"),
        Cause::Frame { word: 4 } => f.write_str("the frame's length is not due"),
        Cause::Frame { word } => write!(f, "the frame is not due, by its word {word}"),
        Cause::Early { missing } => write!(f, "{missing} elements are missing"),
        Cause::Field { line, column } => write!(
            f,
            "the sheet's field at line {line}, column {column} is not legal"
        ),
        Cause::Beyond { index } => write!(
            f,
            "a price, a charge or a number is beyond its limits at index {index}"
        ),
    }
}

impl fmt::Display for Refusal {
    fn fmt<W: fmt::Write>(&self, f: &mut fmt::Formatter<W>) -> fmt::Result {
        let number = self.cause.number();
        write!(f, "refused {number}")?;
        write_values(self.cause, f)?;
        write!(f, ": ")?;
        write_meaning(self.cause, self.boards, f)
    }
}
