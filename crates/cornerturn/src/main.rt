// Plans the moving of a matrix that a job describes, or checks a saved plan against the job.
#![tactic(auto)]

mod commands;
mod end;
mod files;

use commands::run;
use end::End;
use std::env;
use std::process::ExitCode;

// Does what the arguments ask for.
fn start(rt: &HostRuntime) -> Result<(), End> {
    let words: Vec<String> = env::args(rt)?.skip(1).collect(rt.alloc())?;
    let words: Vec<&str> = words.iter().map(|word| word.as_str()).collect(rt.alloc())?;
    run(rt, &words)
}

// An `Err` that `main` returned would be printed, and what is wrong has been told.
fn main(rt: HostRuntime) -> ExitCode {
    match start(&rt) {
        Ok(()) => ExitCode::SUCCESS,
        Err(_) => ExitCode::FAILURE,
    }
}
