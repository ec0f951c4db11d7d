// Reading jobs and sheets.
use crate::end::End;
use jobs::{Job, Mistake, parse};
use std::io::Read;
use std::{fs, io};

fn read_all(rt: &HostRuntime, file: &str) -> io::Result<Vec<u8>> {
    if file != "-" {
        return fs::read(rt, file);
    }
    let mut bytes = Vec::new(rt.alloc());
    rt.stdin().read_to_end(&mut bytes)?;
    Ok(bytes)
}

// All of a file, or of standard input for `-`.
pub fn read(rt: &HostRuntime, file: &str) -> Result<Vec<u8>, End> {
    read_all(rt, file).map_err(|_| End::told(eprintln!(rt; "cornerturn: {file}: cannot be read")))
}

pub fn read_job(rt: &HostRuntime, file: &str) -> Result<Job, End> {
    let text = read(rt, file)?;
    parse(rt.alloc(), &text).map_err(|Mistake { line, wrong, .. }| {
        End::told(eprintln!(rt; "cornerturn: {file}:{line}: {wrong}"))
    })
}
