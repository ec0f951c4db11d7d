// What the rules say of the worked example.
ghost use Rattle.std.specs.Prelude.{◌≡◌, true};
ghost use Rattle.worked.specs.Example.{Worked};

// Names what follows from the rules for the worked example: its packages, costs and bills, the plan that is
// adopted, the one that is refused, and the shares that pass and do not. It answers true.
pub fn worked_example_stands() -> bool
    ensures value { result ≡ true }
    ensures worked { Worked }
{
    true
}
