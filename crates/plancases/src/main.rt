// Answers a row of cases on standard input: plans, checks and echoes.
#![tactic(auto)]

mod answers;
mod cases;

use answers::answer;
use anyhow::anyhow;
use cases::{Case, Cases};
use std::io::Read;

fn run(rt: &HostRuntime) -> anyhow::Result<()> {
    let mut input = Vec::new(rt.alloc());
    rt.stdin().read_to_end(&mut input)?;
    for (number, case) in Cases(&input).enumerate() {
        let Ok(case) = case else {
            return Err(anyhow!("plancases: the input is no row of cases"));
        };
        println!(rt; "case {number}")?;
        answer(rt, case)?;
    }
    Ok(())
}

fn main(rt: HostRuntime) -> anyhow::Result<()> {
    run(&rt)
}
