// The answers to cases.
use crate::cases::Case;
use faults::Cause;
use jobplans::{Planned, Refusal, Summary, adopted, settled};
use jobs::{Mistake, parse};
use plans::{SHEET, echo};
use std::io::Write;
use std::{fmt, io};

// Why a job has no plan.
#[derive(Clone, Copy)]
enum Unplanned<'a> {
    Mistaken(Mistake<'a>),
    Refused(Refusal),
}

impl<'a> From<Mistake<'a>> for Unplanned<'a> {
    fn from(mistake: Mistake<'a>) -> Unplanned<'a> {
        Unplanned::Mistaken(mistake)
    }
}

impl<'a> From<Refusal> for Unplanned<'a> {
    fn from(refusal: Refusal) -> Unplanned<'a> {
        Unplanned::Refused(refusal)
    }
}

impl fmt::Display for Unplanned<'_> {
    fn fmt<W: fmt::Write>(&self, f: &mut fmt::Formatter<W>) -> fmt::Result {
        match self {
            Unplanned::Mistaken(Mistake { line, wrong, .. }) => write!(
                f,
                "mistake {line}: {wrong}"
            ),
            Unplanned::Refused(refusal) => write!(f, "{refusal}"),
        }
    }
}

// Tells the plan where it is found: to hand it on would copy its drawing.
fn plan<'a>(rt: &HostRuntime, job: &'a [u8]) -> Result<io::Result<()>, Unplanned<'a>> {
    let planned = settled(&parse(rt.alloc(), job)?)?;
    let summary = Summary(&planned);
    Ok(print!(rt; "{summary}"))
}

fn check<'a>(
    rt: &HostRuntime,
    job: &'a [u8],
    sheet: &[u8],
) -> Result<io::Result<()>, Unplanned<'a>> {
    let Planned { bill, .. } = adopted(&parse(rt.alloc(), job)?, sheet)?;
    Ok(println!(rt; "taken, bill {bill}"))
}

fn echoed(rt: &HostRuntime, bytes: &[u8]) -> io::Result<()> {
    let mut sheet = [0u8; SHEET];
    match echo(bytes, &mut sheet) {
        Ok(len) => rt.stdout().write_all(&sheet[0..len]),
        Err(fault) => {
            let number = fault.number();
            match fault.cause {
                Cause::Field { line, column } => println!(rt; "{number:>8}{line:>8}{column:>8}"),
                _ => eprintln!(rt; "plancases: {fault}"),
            }
        }
    }
}

pub fn answer(rt: &HostRuntime, case: Case<'_>) -> io::Result<()> {
    let told = match case {
        Case::Plan { job } => plan(rt, job),
        Case::Check { job, sheet } => check(rt, job, sheet),
        Case::Echo { sheet } => return echoed(rt, sheet),
    };
    told.unwrap_or_else(|unplanned| println!(rt; "{unplanned}"))
}
