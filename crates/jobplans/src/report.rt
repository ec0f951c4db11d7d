// What is printed of a plan.
ghost use Rattle.std.specs.Prelude.{◌≡◌};
ghost use Rattle.jobplans.specs.Savings.{tenths};

use crate::planned::Planned;
use drawings::Drawing;
use plans::{Plan, SHEET};
use std::fmt;
use std::str::from_utf8;

// A plan down to the saving.
#[derive(Clone, Copy)]
pub struct Summary<'a>(pub &'a Planned);

// All of a plan.
#[derive(Clone, Copy)]
pub struct Report<'a>(pub &'a Planned);

// A plan as its sheet.
#[derive(Clone, Copy)]
pub struct Sheet<'a>(pub &'a Plan);

// The rows and the columns of cells. Cells are numbered row by row from the top.
fn overlay(drawing: &Drawing) -> Option<(usize, usize)> {
    let cells = drawing.cell_count();
    let columns = (0..cells)
        .take_while(|&k| matches!(drawing.cell(k), Ok(cell) if cell.top == 0))
        .count();
    Some((cells.checked_div(columns)?, columns))
}

// The part of `own` that `least` saves, in tenths of a per cent.
fn saving(own: u64, least: u64) -> u128
    ensures value { result ≡ tenths own least }
{
    if own == 0 {
        return 0;
    }
    u128::from(own.saturating_sub(least)) * 1000 / u128::from(own)
}

fn write_packages<W: fmt::Write>(planned: &Planned, f: &mut fmt::Formatter<W>) -> fmt::Result {
    writeln!(f, "packages in bytes, senders down and roles across:")?;
    write!(f, "     ")?;
    for role in 0..planned.boards {
        write!(f, "{role:>10}")?;
    }
    writeln!(f)?;
    for sender in 0..planned.boards {
        write!(f, "{sender:>5}")?;
        for role in 0..planned.boards {
            let bytes = planned
                .drawing
                .package_bytes(sender, role, planned.words)
                .map_err(|_| fmt::Error)?;
            write!(f, "{bytes:>10}")?;
        }
        writeln!(f)?;
    }
    Ok(())
}

impl fmt::Display for Summary<'_> {
    fn fmt<W: fmt::Write>(&self, f: &mut fmt::Formatter<W>) -> fmt::Result {
        let planned = self.0;
        let (rows, columns) = overlay(&planned.drawing).ok_or(fmt::Error)?;
        writeln!(f, "overlay: {rows} x {columns} cells")?;
        writeln!(f)?;
        write_packages(planned, f)?;
        let own = planned.own;
        let least = planned.bill;
        let tenths = saving(own, least);
        let whole = tenths / 10;
        let part = tenths % 10;
        writeln!(f)?;
        writeln!(f, "own names:      {own}")?;
        writeln!(f, "least naming:   {least}")?;
        writeln!(f, "saving:         {whole}.{part} %")
    }
}

impl fmt::Display for Sheet<'_> {
    fn fmt<W: fmt::Write>(&self, f: &mut fmt::Formatter<W>) -> fmt::Result {
        let mut bytes = [0u8; SHEET];
        let len = self.0.write(&mut bytes).map_err(|_| fmt::Error)?;
        let sheet = bytes.get(..len).ok_or(fmt::Error)?;
        f.write_str(from_utf8(sheet).map_err(|_| fmt::Error)?)
    }
}

fn write_naming<W: fmt::Write>(planned: &Planned, f: &mut fmt::Formatter<W>) -> fmt::Result {
    writeln!(f, "naming:")?;
    for role in 0..planned.boards {
        let line = planned.plan.line(role).map_err(|_| fmt::Error)?;
        let board = line.board;
        writeln!(f, "role {role} to board {board}")?;
    }
    Ok(())
}

impl fmt::Display for Report<'_> {
    fn fmt<W: fmt::Write>(&self, f: &mut fmt::Formatter<W>) -> fmt::Result {
        let planned = self.0;
        let summary = Summary(planned);
        let sheet = Sheet(&planned.plan);
        writeln!(f, "{summary}")?;
        write_naming(planned, f)?;
        write!(f, "\nsheet:\n{sheet}")
    }
}
