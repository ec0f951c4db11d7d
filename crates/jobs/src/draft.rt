// A job while its items are read.
ghost use Rattle.std.specs.Prelude.{◌≤◌, IfErr};

use crate::item::{Item, Part};
use crate::job::{Alpha, Job, LayoutText, TariffText};
use crate::line::Line;
use crate::mistake::{Due, Mistake, Wrong};
use crate::values::{letter, list, one_number, two_numbers, value};
use std::alloc::Global;

// The kinds of elements.
#[derive(Clone, Copy)]
enum Kind {
    Word,
    Pair,
}

#[derive(Default, Drop)]
struct LayoutDraft {
    size: Option<(usize, usize)>,
    rows: Option<Vec<u16>>,
    columns: Option<Vec<u16>>,
    owners: Option<Vec<u8>>,
    order: Option<char>,
    share: Option<usize>,
}

#[derive(Drop)]
pub struct Draft {
    pub(crate) heap: Global,
    boards: Option<usize>,
    kind: Option<Kind>,
    operation: Option<char>,
    alpha: Option<(Line, Alpha)>,
    target: LayoutDraft,
    source: LayoutDraft,
    tariff: Option<TariffText>,
    surcharges: Vec<Vec<u32>>,
}

// All that a text has to have.
#[derive(Drop)]
struct Whole {
    job: Job,
    kind: Kind,
    alpha_line: Line,
}

const MOST_SURCHARGES: usize = 2;

fn kind_of<'a>(words: &[&'a str]) -> Result<Kind, Wrong<'a>> {
    match words {
        ["word"] => Ok(Kind::Word),
        ["pair"] => Ok(Kind::Pair),
        _ => Err(Wrong::Lacks(Item::Element, Due::WordOrPair)),
    }
}

fn alpha_of<'a>(words: &[&'a str]) -> Result<Alpha, Wrong<'a>> {
    match words {
        [number] => Ok(Alpha::Word(value(Item::Alpha, number)?)),
        [_, _] => {
            let (real, imaginary) = two_numbers(Item::Alpha, words)?;
            Ok(Alpha::Pair(real, imaginary))
        }
        _ => Err(Wrong::Lacks(Item::Alpha, Due::OneOrTwoNumbers)),
    }
}

fn tariff_of<'a>(heap: Global, words: &[&'a str]) -> Result<TariffText, Wrong<'a>> {
    match words {
        ["plain"] => Ok(TariffText::Plain),
        ["table", prices @ ..] => Ok(TariffText::Table(list(heap, Item::Tariff, prices)?)),
        _ => Err(Wrong::Lacks(Item::Tariff, Due::PlainOrTable)),
    }
}

impl LayoutDraft {
    fn has(&self, part: Part) -> bool {
        match part {
            Part::Size => self.size.is_some(),
            Part::Rows => self.rows.is_some(),
            Part::Columns => self.columns.is_some(),
            Part::Owners => self.owners.is_some(),
            Part::Order => self.order.is_some(),
            Part::Share => self.share.is_some(),
        }
    }

    fn read<'a>(
        &mut self,
        heap: Global,
        item: Item,
        part: Part,
        words: &[&'a str],
    ) -> Result<(), Wrong<'a>> {
        match part {
            Part::Size => self.size = Some(two_numbers(item, words)?),
            Part::Rows => self.rows = Some(list(heap, item, words)?),
            Part::Columns => self.columns = Some(list(heap, item, words)?),
            Part::Owners => self.owners = Some(list(heap, item, words)?),
            Part::Order => self.order = Some(letter(item, words)?),
            Part::Share => self.share = Some(one_number(item, words)?),
        }
        Ok(())
    }

    // The layout, or its first part that is missing.
    fn finish(self) -> Result<LayoutText, Part> {
        let (rows, columns) = self.size.ok_or(Part::Size)?;
        Ok(LayoutText {
            rows,
            columns,
            row_splits: self.rows.ok_or(Part::Rows)?,
            column_splits: self.columns.ok_or(Part::Columns)?,
            owners: self.owners.ok_or(Part::Owners)?,
            order: self.order.ok_or(Part::Order)?,
            share: self.share.ok_or(Part::Share)?,
        })
    }
}

impl Draft {
    pub(crate) fn new(heap: Global) -> Draft {
        Draft {
            heap,
            boards: None,
            kind: None,
            operation: None,
            alpha: None,
            target: LayoutDraft::default(),
            source: LayoutDraft::default(),
            tariff: None,
            surcharges: Vec::new(heap),
        }
    }

    // Whether the item has stood as often as it may.
    pub(crate) fn has(&self, item: Item) -> bool {
        match item {
            Item::Boards => self.boards.is_some(),
            Item::Element => self.kind.is_some(),
            Item::Operation => self.operation.is_some(),
            Item::Alpha => self.alpha.is_some(),
            Item::Target(part) => self.target.has(part),
            Item::Source(part) => self.source.has(part),
            Item::Tariff => self.tariff.is_some(),
            Item::Surcharge => self.surcharges.len() >= MOST_SURCHARGES,
        }
    }

    // Reads what stands behind the item's name.
    pub(crate) fn read<'a>(
        &mut self,
        line: Line,
        item: Item,
        words: &[&'a str],
    ) -> Result<(), Wrong<'a>> {
        let heap = self.heap;
        match item {
            Item::Boards => self.boards = Some(one_number(item, words)?),
            Item::Element => self.kind = Some(kind_of(words)?),
            Item::Operation => self.operation = Some(letter(item, words)?),
            Item::Alpha => self.alpha = Some((line, alpha_of(words)?)),
            Item::Target(part) => self.target.read(heap, item, part, words)?,
            Item::Source(part) => self.source.read(heap, item, part, words)?,
            Item::Tariff => self.tariff = Some(tariff_of(heap, words)?),
            Item::Surcharge => self.surcharges.push(list(heap, item, words)?)?,
        }
        Ok(())
    }

    // All that has been read, or the first item that is missing.
    fn whole(self) -> Result<Whole, Item> {
        let boards = self.boards.ok_or(Item::Boards)?;
        let kind = self.kind.ok_or(Item::Element)?;
        let operation = self.operation.ok_or(Item::Operation)?;
        let (alpha_line, alpha) = self.alpha.ok_or(Item::Alpha)?;
        let job = Job {
            boards,
            operation,
            alpha,
            target: self.target.finish().map_err(Item::Target)?,
            source: self.source.finish().map_err(Item::Source)?,
            tariff: self.tariff.ok_or(Item::Tariff)?,
            surcharges: self.surcharges,
        };
        Ok(Whole {
            job,
            kind,
            alpha_line,
        })
    }

    // The job, or the first mistake of the whole text, which ends before the line `after`.
    pub(crate) fn finish<'a>(self, after: Line) -> Result<Job, Mistake<'a>>
        ensures line { IfErr result (λ m. 1 ≤ m.line) }
    {
        let Whole {
            job,
            kind,
            alpha_line,
        } = self
            .whole()
            .map_err(|item| Mistake::new(after, Wrong::Missing(item)))?;
        let due = match (kind, job.alpha) {
            (Kind::Word, Alpha::Word(_)) | (Kind::Pair, Alpha::Pair(_, _)) => return Ok(job),
            (Kind::Word, Alpha::Pair(_, _)) => Due::OneForWord,
            (Kind::Pair, Alpha::Word(_)) => Due::TwoForPair,
        };
        Err(Mistake::new(alpha_line, Wrong::Lacks(Item::Alpha, due)))
    }
}
