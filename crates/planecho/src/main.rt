// Reads a plan sheet on standard input and writes it back, or the refusal's number, line and column.
#![tactic(auto)]

ghost use Rattle.std.specs.Prelude.{◌≤◌, IfOk};

use faults::{Cause, Fault};
use plans::{SHEET, echo};
use std::io;
use std::io::{Read, Write};

// One byte more than the longest sheet: what follows it changes nothing in the answer.
const BOUND: usize = SHEET + 1;

// Reads until the input ends or the bound is reached, and answers how many bytes there are. A sheet is read
// without a heap, as the controller reads it: so an array and a count, and not a Vec.
fn read_front(input: &mut impl Read, bytes: &mut [u8; BOUND]) -> io::Result<usize>
    ensures { IfOk result (λ n. n ≤ 810) }
{
    let mut len = 0;
    for _ in 0..BOUND {
        if len >= BOUND {
            break;
        }
        let more = input.read(&mut bytes[len..])?;
        if more == 0 {
            break;
        }
        len += more;
    }
    Ok(len)
}

fn refused(rt: &HostRuntime, fault: Fault) -> io::Result<()> {
    let number = fault.number();
    match fault.cause {
        Cause::Field { line, column } => println!(rt; "{number:>8}{line:>8}{column:>8}"),
        _ => eprintln!(rt; "planecho: {fault}"),
    }
}

fn main(rt: HostRuntime) -> io::Result<()> {
    let mut bytes = [0u8; BOUND];
    let len = read_front(&mut rt.stdin(), &mut bytes)?;
    let mut sheet = [0u8; SHEET];
    match echo(&bytes[0..len], &mut sheet) {
        Ok(k) => rt.stdout().write_all(&sheet[0..k]),
        Err(fault) => refused(&rt, fault),
    }
}
