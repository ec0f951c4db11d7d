// One line for a person, for each cause and fault.
use crate::cause::{Bank, Cause, Side, State};
use crate::fault::{Call, Fault, Layer};
use std::fmt;

impl fmt::Display for Side {
    fn fmt<W: fmt::Write>(&self, f: &mut fmt::Formatter<W>) -> fmt::Result {
        f.write_str(match self {
            Side::Rows => "row",
            Side::Columns => "column",
        })
    }
}

impl fmt::Display for Bank {
    fn fmt<W: fmt::Write>(&self, f: &mut fmt::Formatter<W>) -> fmt::Result {
        f.write_str(match self {
            Bank::Source => "source",
            Bank::Target => "target",
        })
    }
}

impl fmt::Display for State {
    fn fmt<W: fmt::Write>(&self, f: &mut fmt::Formatter<W>) -> fmt::Result {
        f.write_str(match self {
            State::Empty => "empty",
            State::Drawn => "drawn",
            State::Settled => "settled",
            State::Running => "running",
        })
    }
}

impl fmt::Display for Layer {
    fn fmt<W: fmt::Write>(&self, f: &mut fmt::Formatter<W>) -> fmt::Result {
        f.write_str(match self {
            Layer::Plans => "plans",
            Layer::Layouts => "layouts",
            Layer::Drawings => "drawings",
            Layer::Tariffs => "tariffs",
            Layer::Assignment => "assignment",
            Layer::Links => "links",
            Layer::Book => "book",
        })
    }
}

impl fmt::Display for Call {
    fn fmt<W: fmt::Write>(&self, f: &mut fmt::Formatter<W>) -> fmt::Result {
        f.write_str(match self {
            Call::Make => "make",
            Call::Ask => "ask",
            Call::Read => "read",
            Call::Write => "write",
            Call::Solve => "solve",
            Call::Judge => "judge",
            Call::Bill => "bill",
            Call::Zero => "zero",
            Call::At => "at",
            Call::Set => "set",
            Call::Put => "put",
            Call::Look => "look",
            Call::Drop => "drop",
            Call::Cover => "cover",
            Call::Draw => "draw",
            Call::Settle => "settle",
            Call::Adopt => "adopt",
            Call::Begin => "begin",
            Call::Keep => "keep",
            Call::Post => "post",
            Call::Take => "take",
            Call::Finish => "finish",
            Call::Abandon => "abandon",
        })
    }
}

impl fmt::Display for Cause {
    fn fmt<W: fmt::Write>(&self, f: &mut fmt::Formatter<W>) -> fmt::Result {
        match *self {
            Cause::Letter { code } => write!(f, "unknown letter, code {code}"),
            Cause::Board { number } => write!(
                f,
                "board or count of boards {number} outside limits"
            ),
            Cause::Size { number } => write!(
                f,
                "rows, columns or boards {number} outside limits or not fitting"
            ),
            Cause::Splits { side, index } => write!(f, "{side} splits wrong at index {index}"),
            Cause::Owners { index } => write!(f, "owner table wrong at index {index}"),
            Cause::Share { bank, owner } => write!(
                f,
                "{bank} share outside limits or exceeded, owner {owner}"
            ),
            Cause::State { state } => write!(f, "not while the book is {state}"),
            Cause::Count { number } => write!(f, "made for another count of boards, {number}"),
            Cause::Plan { role } => write!(f, "plan not adoptable, role {role}"),
            Cause::Pass => f.write_str("lease of another pass"),
            Cause::Length { due } => write!(f, "wrong length, {due} due"),
            Cause::Nothing { board } => write!(f, "nothing to do or waiting at board {board}"),
            Cause::Closed { board } => write!(f, "board {board} not open"),
            Cause::Frame { word } => write!(f, "frame not due, header word {word}"),
            Cause::Early { missing } => write!(f, "finish too early, {missing} elements missing"),
            Cause::Field { line, column } => write!(
                f,
                "sheet field not legal, line {line}, column {column}"
            ),
            Cause::Beyond { index } => write!(f, "beyond limits at index {index}"),
        }
    }
}

impl fmt::Display for Fault {
    fn fmt<W: fmt::Write>(&self, f: &mut fmt::Formatter<W>) -> fmt::Result {
        let layer = self.layer;
        let call = self.call;
        let cause = self.cause;
        let number = cause.number();
        write!(f, "{layer}: {call} refused by {number}: {cause}")
    }
}
