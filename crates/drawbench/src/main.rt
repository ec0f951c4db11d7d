// Makes drawings of two layouts of 32 by 32 blocks whose splits are staggered, as often as the first
// argument says, and prints the cells of one and the elements of the packages that it asked for.
#![tactic(auto)]

use anyhow::anyhow;
use drawings::Drawing;
use faults::Fault;
use layouts::Layout;
use std::alloc::{AllocError, Global};
use std::env;

const SIDE: u16 = 1024;

// 33 splits of the side: from the second on, each `shift` past a multiple of 32.
fn splits(heap: Global, shift: u16) -> Result<Vec<u16>, AllocError> {
    let mut list = Vec::new(heap);
    list.push(0)?;
    for k in 1..32u16 {
        list.push(32 * k - shift % 32)?;
    }
    list.push(SIDE)?;
    Ok(list)
}

// An owner of 16 for each of 1,024 blocks.
fn owners(heap: Global, step: usize) -> Result<Vec<u8>, AllocError> {
    (0..1024usize)
        .map(|b| (b.wrapping_mul(step) % 16) as u8)
        .collect(heap)
}

fn layout(rt: &HostRuntime, shift: u16, step: usize) -> anyhow::Result<Layout> {
    let cuts = splits(rt.alloc(), shift)?;
    let table = owners(rt.alloc(), step)?;
    Layout::new('R', 16, 1024, 1024, &cuts, &cuts, &table).map_err(|fault| told(rt, fault))
}

// Prints a fault, and makes an error of it.
fn told(rt: &HostRuntime, fault: Fault) -> anyhow::Error {
    let _ = eprintln!(rt; "drawbench: {fault}");
    anyhow!("refused")
}

// The elements of one package of each of so many drawings, added up.
fn draw(target: &Layout, source: &Layout, rounds: u32) -> Result<u64, Fault> {
    let mut sum = 0u64;
    for round in 0..rounds {
        let letter = if round % 2 == 0 { 'N' } else { 'T' };
        let drawing = Drawing::new(letter, target, source, 1_048_576, 1_048_576)?;
        let board = (round % 16) as usize;
        sum = sum.wrapping_add(drawing.package_elements(board, 15 - board)? as u64);
    }
    Ok(sum)
}

fn main(rt: HostRuntime) -> anyhow::Result<()> {
    let rounds = match env::args(&rt)?.nth(1) {
        Some(word) => word.as_str().parse::<u32>()?,
        None => 16,
    };
    let target = layout(&rt, 0, 7)?;
    let source = layout(&rt, 16, 5)?;
    let sum = draw(&target, &source, rounds).map_err(|fault| told(&rt, fault))?;
    println!(rt; "{rounds} drawings, {sum} elements")?;
    Ok(())
}
