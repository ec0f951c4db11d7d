// Mistakes in the text of a job.
ghost use Rattle.std.specs.Prelude.{◌≡◌};
ghost use Rattle.jobs.specs.declared.mistake.Wrong.TheVariants.{NoMemory};

use crate::item::Item;
use crate::line::Line;
use faults::Bank;
use job_words::Unread;
use std::alloc::{AllocError, AllocFailed};
use std::fmt;

// What is due after an item's name.
#[derive(Clone, Copy)]
pub enum Due {
    OneNumber,
    TwoNumbers,
    OneOrTwoNumbers,
    OneLetter,
    WordOrPair,
    PlainOrTable,
    OneForWord,
    TwoForPair,
}

// What is wrong.
#[derive(Clone, Copy)]
pub enum Wrong<'a> {
    NotText,
    NoItem(&'a str),
    NoPart(Bank, &'a str),
    NoPartAtAll(Bank),
    TooOften(Item),
    NotNumber {
        item: Item,
        word: &'a str,
        bits: u32,
    },
    Lacks(Item, Due),
    Missing(Item),
    NoMemory,
}

impl fmt::Display for Due {
    fn fmt<W: fmt::Write>(&self, f: &mut fmt::Formatter<W>) -> fmt::Result {
        f.write_str(match self {
            Due::OneNumber => "one number is due",
            Due::TwoNumbers => "two numbers are due",
            Due::OneOrTwoNumbers => "one or two numbers are due",
            Due::OneLetter => "one letter is due",
            Due::WordOrPair => "word or pair is due",
            Due::PlainOrTable => "plain or table is due",
            Due::OneForWord => "one number is due for a word",
            Due::TwoForPair => "two numbers are due for a pair",
        })
    }
}

impl fmt::Display for Wrong<'_> {
    fn fmt<W: fmt::Write>(&self, f: &mut fmt::Formatter<W>) -> fmt::Result {
        match *self {
            Wrong::NotText => f.write_str("not UTF-8 text"),
            Wrong::NoItem(word) => write!(f, "no such item: {word}"),
            Wrong::NoPart(bank, word) => write!(f, "no such item: {bank} {word}"),
            Wrong::NoPartAtAll(bank) => write!(f, "no such item: {bank}"),
            Wrong::TooOften(item) => write!(f, "{item} stands once too often"),
            Wrong::NotNumber { item, word, bits } => write!(
                f,
                "{item}: {word} is not a number of {bits} bits"
            ),
            Wrong::Lacks(item, due) => write!(f, "{item}: {due}"),
            Wrong::Missing(item) => write!(f, "{item} is missing"),
            Wrong::NoMemory => f.write_str("no memory is left"),
        }
    }
}

impl<'a> From<Unread> for Wrong<'a> {
    fn from(unread: Unread) -> Wrong<'a> {
        match unread {
            Unread::NotText => Wrong::NotText,
            Unread::NoMemory => Wrong::NoMemory,
        }
    }
}

impl<'a> From<AllocError> for Wrong<'a> {
    ghost from_gives = { λ _ e. e ≡ NoMemory };

    fn from(_e: AllocError) -> Wrong<'a> {
        Wrong::NoMemory
    }
}

impl<'a, T: Drop> From<AllocFailed<T>> for Wrong<'a> {
    ghost from_gives = { λ _ e. e ≡ NoMemory };

    fn from(_e: AllocFailed<T>) -> Wrong<'a> {
        Wrong::NoMemory
    }
}

// What is wrong, and where: lines count from 1.
#[derive(Clone, Copy)]
pub struct Mistake<'a> {
    pub line: usize,
    pub wrong: Wrong<'a>,
}

impl<'a> Mistake<'a> {
    pub(crate) fn new(line: Line, wrong: Wrong<'a>) -> Mistake<'a>
        ensures line { result.line ≡ line.number }
    {
        Mistake {
            line: line.number,
            wrong,
        }
    }
}
