// Two small tables, worked by hand.
ghost use Rattle.std.specs.Prelude.{◌≡◌, true};
ghost use Rattle.assignment_laws.specs.Small.{CheapestFirst, Exchange};

// Names two tables worked by hand: where giving out the cheapest pair first is not least, and where an exchange is.
// It answers true.
pub fn small_tables_stand() -> bool
    ensures cheapest_first { CheapestFirst }
    ensures exchange { Exchange }
    ensures answer { result ≡ true }
{
    true
}
