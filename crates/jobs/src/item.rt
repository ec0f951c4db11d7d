// The items of a job and their names.
ghost use Rattle.jobs.specs.Names.{NamesPart};

use faults::Bank;
use std::fmt;
use std::str::FromStr;

// An item of a layout.
#[derive(Clone, Copy, PartialEq, Eq)]
pub enum Part {
    Size,
    Rows,
    Columns,
    Owners,
    Order,
    Share,
}

#[derive(Clone, Copy, PartialEq, Eq)]
pub enum Item {
    Boards,
    Element,
    Operation,
    Alpha,
    Target(Part),
    Source(Part),
    Tariff,
    Surcharge,
}

// A word that names no part.
#[derive(Clone, Copy, PartialEq, Eq)]
pub struct NoPart;

impl FromStr for Part {
    type Err = NoPart;

    ghost from_str_gives = { λ word r. NamesPart word r };

    fn from_str(word: &str) -> Result<Part, NoPart> {
        match word {
            "size" => Ok(Part::Size),
            "rows" => Ok(Part::Rows),
            "columns" => Ok(Part::Columns),
            "owners" => Ok(Part::Owners),
            "order" => Ok(Part::Order),
            "share" => Ok(Part::Share),
            _ => Err(NoPart),
        }
    }
}

impl fmt::Display for Part {
    fn fmt<W: fmt::Write>(&self, f: &mut fmt::Formatter<W>) -> fmt::Result {
        f.write_str(match self {
            Part::Size => "size",
            Part::Rows => "rows",
            Part::Columns => "columns",
            Part::Owners => "owners",
            Part::Order => "order",
            Part::Share => "share",
        })
    }
}

impl fmt::Display for Item {
    fn fmt<W: fmt::Write>(&self, f: &mut fmt::Formatter<W>) -> fmt::Result {
        match *self {
            Item::Boards => f.write_str("boards"),
            Item::Element => f.write_str("element"),
            Item::Operation => f.write_str("operation"),
            Item::Alpha => f.write_str("alpha"),
            Item::Target(part) => write!(f, "target {part}"),
            Item::Source(part) => write!(f, "source {part}"),
            Item::Tariff => f.write_str("tariff"),
            Item::Surcharge => f.write_str("surcharge"),
        }
    }
}
