// What the words behind the program's name ask for.
use crate::end::End;
use crate::files::{read, read_job};
use jobplans::{Planned, Refusal, Report, Sheet, adopted, settled};
use std::fmt;

const HELP: &str = "\
Plans the moving of a matrix between two layouts, or checks a saved plan.

  cornerturn plan JOB            the plan, for a person
  cornerturn plan --sheet JOB    the plan's sheet alone
  cornerturn check JOB SHEET     whether the sheet's plan is taken for the job
  cornerturn --help
  cornerturn --version

JOB and SHEET name files; one of them may be -, which stands for standard input.
The status is 0 where a plan was made or taken, and else 1.
";

const VERSION: &str = "0.1.0";

fn show<T: fmt::Display>(rt: &HostRuntime, what: &T) -> Result<(), End> {
    print!(rt; "{what}")?;
    Ok(())
}

fn refuse(rt: &HostRuntime, refusal: Refusal) -> End {
    End::told(println!(rt; "{refusal}"))
}

fn settle(rt: &HostRuntime, file: &str) -> Result<Planned, End> {
    let job = read_job(rt, file)?;
    settled(&job).map_err(|refusal| refuse(rt, refusal))
}

fn plan(rt: &HostRuntime, file: &str) -> Result<(), End> {
    let planned = settle(rt, file)?;
    show(rt, &Report(&planned))
}

fn sheet(rt: &HostRuntime, file: &str) -> Result<(), End> {
    let planned = settle(rt, file)?;
    show(rt, &Sheet(&planned.plan))
}

fn check(rt: &HostRuntime, file: &str, sheet_file: &str) -> Result<(), End> {
    let job = read_job(rt, file)?;
    let sheet = read(rt, sheet_file)?;
    let planned = adopted(&job, &sheet).map_err(|refusal| refuse(rt, refusal))?;
    let bill = planned.bill;
    println!(rt; "taken, bill {bill}")?;
    Ok(())
}

fn misused(rt: &HostRuntime, wrong: &str) -> Result<(), End> {
    Err(End::told(eprintln!(rt; "cornerturn: {wrong}")))
}

fn show_version(rt: &HostRuntime) -> Result<(), End> {
    println!(rt; "cornerturn {VERSION}")?;
    Ok(())
}

pub fn run(rt: &HostRuntime, words: &[&str]) -> Result<(), End> {
    match words {
        ["--help"] => show(rt, &HELP),
        ["--version"] => show_version(rt),
        ["plan", "--sheet"] => misused(rt, "a job is due"),
        ["plan", job] => plan(rt, job),
        ["plan", "--sheet", job] => sheet(rt, job),
        ["check", "-", "-"] => misused(rt, "standard input stands for one file only"),
        ["check", job, sheet] => check(rt, job, sheet),
        _ => misused(
            rt,
            "plan JOB, plan --sheet JOB, check JOB SHEET, --help or --version is due",
        ),
    }
}
