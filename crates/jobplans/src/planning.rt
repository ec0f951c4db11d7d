// From a job to its plan: the layouts are made, then the tariff, then the drawing, and the plan is settled
// or proposed.
ghost use Rattle.std.specs.Prelude.{◌≡◌, IfOk, MatchResult};

use crate::planned::Planned;
use crate::refusal::Refusal;
use crate::stop::Stop;
use assignment::bill;
use book::Book;
use drawings::Drawing;
use elements::{Element, Pair, Word};
use faults::{Call, Fault};
use jobs::{Alpha, Job, LayoutText, TariffText};
use layouts::Layout;
use plans::Plan;
use price_lists::Table;
use settling::costing::costs;
use surcharges::{Charges, Surcharge};
use tariffs::{Plain, Tariff};

// The naming that gives each role the board of its own number.
const OWN: [usize; 16] = [0, 1, 2, 3, 4, 5, 6, 7, 8, 9, 10, 11, 12, 13, 14, 15];

// What is asked: a plan of least bill, or the plan of the sheet.
#[derive(Clone, Copy)]
enum Wish<'a> {
    Settle,
    Adopt(&'a [u8]),
}

// A job with its layouts, and what is asked of it.
#[derive(Clone, Copy)]
struct Request<'a> {
    job: &'a Job,
    source: Layout,
    target: Layout,
    wish: Wish<'a>,
}

fn layout(boards: usize, text: &LayoutText) -> Result<Layout, Fault> {
    Layout::new(
        text.order,
        boards,
        text.rows,
        text.columns,
        &text.row_splits,
        &text.column_splits,
        &text.owners,
    )
}

// A tariff with a list of surcharges over it.
fn surcharged<T: Tariff + Drop>(tariff: T, list: &[u32]) -> Result<Surcharge<T>, Fault> {
    let charges = Charges::new(&tariff, list)?;
    Ok(Surcharge::new(tariff, charges))
}

// What own names cost.
fn own_names<E: Element, T: Tariff>(drawing: &Drawing, alpha: E, tariff: &T) -> Result<u64, Fault> {
    let costs = costs(Call::Settle, drawing, alpha, tariff)?;
    bill(&costs, &OWN)
}

impl Request<'_> {
    fn drawing(&self) -> Result<Drawing, Fault> {
        let job = self.job;
        Drawing::new(
            job.operation,
            &self.target,
            &self.source,
            job.source.share,
            job.target.share,
        )
    }

    // The plan that the book has of the job, or takes from the sheet. A closure in place of the wish could not be
    // generic over the element.
    fn plan<E: Element, T: Tariff>(&self, tariff: &T, alpha: E) -> Result<Plan, Stop> {
        let job = self.job;
        let mut book = Book::new();
        book.draw(
            job.operation,
            &self.target,
            &self.source,
            alpha,
            job.source.share,
            job.target.share,
        )?;
        match self.wish {
            Wish::Settle => book.settle(tariff)?,
            Wish::Adopt(sheet) => book.adopt(tariff, &Plan::read(sheet)?)?,
        }
        Ok(book.plan()?)
    }

    fn with_element<E: Element, T: Tariff>(&self, tariff: &T, alpha: E) -> Result<Planned, Stop>
        ensures count { IfOk result (λ p. p.boards ≡ self.now.job.now.boards) }
    {
        let plan = self.plan(tariff, alpha)?;
        let drawing = self.drawing()?;
        let own = own_names(&drawing, alpha, tariff)?;
        Ok(Planned {
            boards: self.job.boards,
            words: E::size() as u8,
            drawing,
            own,
            bill: plan.bill,
            plan,
        })
    }

    fn with_tariff<T: Tariff>(&self, tariff: &T) -> Result<Planned, Stop>
        ensures count { IfOk result (λ p. p.boards ≡ self.now.job.now.boards) }
    {
        match self.job.alpha {
            Alpha::Word(value) => self.with_element(tariff, Word::from_words([value, 0, 0, 0])),
            Alpha::Pair(real, imaginary) => {
                self.with_element(tariff, Pair::from_words([real, imaginary, 0, 0]))
            }
        }
    }

    // Lays the job's surcharges over a tariff. Each one makes another type, and there are at most two: an arm for each
    // count is plainer than a recursion over a `dyn` tariff, which needs an impl of its own.
    fn with_surcharges<T: Tariff + Drop>(&self, tariff: T) -> Result<Planned, Stop>
        ensures count { IfOk result (λ p. p.boards ≡ self.now.job.now.boards) }
    {
        match self.job.surcharges.as_slice() {
            [] => self.with_tariff(&tariff),
            [first] => self.with_tariff(&surcharged(tariff, first)?),
            [first, second, ..] => {
                self.with_tariff(&surcharged(surcharged(tariff, first)?, second)?)
            }
        }
    }
}

fn fulfil(job: &Job, wish: Wish<'_>) -> Result<Planned, Stop>
    ensures count { IfOk result (λ p. p.boards ≡ job.now.boards) }
{
    let source = layout(job.boards, &job.source)?;
    let target = layout(job.boards, &job.target)?;
    let request = Request {
        job,
        source,
        target,
        wish,
    };
    match &job.tariff {
        TariffText::Plain => request.with_surcharges(Plain::new(job.boards)?),
        TariffText::Table(prices) => request.with_surcharges(Table::try_new(job.boards, prices)?),
    }
}

// The plan that is wished for, or the cause of its refusal.
fn answer(job: &Job, wish: Wish<'_>) -> Result<Planned, Refusal>
    ensures count { MatchResult result (λ p. p.boards ≡ job.now.boards) (λ f. f.boards ≡ job.now.boards) }
{
    // A `map_err` would copy the drawing once more.
    match fulfil(job, wish) {
        Ok(planned) => Ok(planned),
        Err(stop) => Err(Refusal {
            cause: stop.cause,
            boards: job.boards,
        }),
    }
}

// The job's plan of least bill.
pub fn settled(job: &Job) -> Result<Planned, Refusal>
    ensures count { MatchResult result (λ p. p.boards ≡ job.now.boards) (λ f. f.boards ≡ job.now.boards) }
{
    answer(job, Wish::Settle)
}

// The plan of the sheet, where it is one of least bill for the job.
pub fn adopted(job: &Job, sheet: &[u8]) -> Result<Planned, Refusal>
    ensures count { MatchResult result (λ p. p.boards ≡ job.now.boards) (λ f. f.boards ≡ job.now.boards) }
{
    answer(job, Wish::Adopt(sheet))
}
