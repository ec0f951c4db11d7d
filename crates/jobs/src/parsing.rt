// From the text of a job to the job.
ghost use Rattle.std.specs.Prelude.{◌≤◌, IfErr};

use crate::draft::Draft;
use crate::item::Item;
use crate::job::Job;
use crate::line::Line;
use crate::mistake::{Mistake, Wrong};
use faults::Bank;
use job_words::{first_line, words};
use std::alloc::Global;

// The item that a line names, and the words behind its name.
fn item_of<'a, 'b>(
    first: &'a str,
    rest: &'b [&'a str],
) -> Result<(Item, &'b [&'a str]), Wrong<'a>> {
    match first {
        "boards" => Ok((Item::Boards, rest)),
        "element" => Ok((Item::Element, rest)),
        "operation" => Ok((Item::Operation, rest)),
        "alpha" => Ok((Item::Alpha, rest)),
        "target" => part_of(Bank::Target, rest),
        "source" => part_of(Bank::Source, rest),
        "tariff" => Ok((Item::Tariff, rest)),
        "surcharge" => Ok((Item::Surcharge, rest)),
        _ => Err(Wrong::NoItem(first)),
    }
}

// The same of a line that begins with the name of a layout.
fn part_of<'a, 'b>(bank: Bank, words: &'b [&'a str]) -> Result<(Item, &'b [&'a str]), Wrong<'a>> {
    let [word, rest @ ..] = words else {
        return Err(Wrong::NoPartAtAll(bank));
    };
    let part = word.parse().map_err(|_| Wrong::NoPart(bank, word))?;
    match bank {
        Bank::Target => Ok((Item::Target(part), rest)),
        Bank::Source => Ok((Item::Source(part), rest)),
    }
}

fn read_line<'a>(draft: &mut Draft, line: Line, text: &'a [u8]) -> Result<(), Wrong<'a>> {
    let words = words(draft.heap, text)?;
    let [first, rest @ ..] = words.as_slice() else {
        return Ok(());
    };
    let (item, values) = item_of(first, rest)?;
    if draft.has(item) {
        return Err(Wrong::TooOften(item));
    }
    draft.read(line, item, values)
}

// The job that a text describes, or the first mistake in it.
pub fn parse<'a>(heap: Global, text: &'a [u8]) -> Result<Job, Mistake<'a>>
    ensures line { IfErr result (λ m. 1 ≤ m.line) }
{
    let mut draft = Draft::new(heap);
    let mut line = Line::first();
    let mut rest = text;
    // It counts lines and no index, and the number behind the last line is needed: a `for` is no plainer.
    while !rest.is_empty() {
        let (front, after) = first_line(rest);
        read_line(&mut draft, line, front).map_err(|wrong| Mistake::new(line, wrong))?;
        rest = after;
        line = line.next();
    }
    draft.finish(line)
}
