// The laws of runs.
ghost use Rattle.std.specs.Prelude.{◌≡◌, true};
ghost use Rattle.runs.specs.Laws.{CutRows, InCells, Once};

// Names the laws: each element is in exactly one run of the board that it comes from, each run is a piece
// of one row of one cell, and how rows of 61 elements are cut. It answers true.
pub fn runs_stand() -> bool
    ensures value { result ≡ true }
    ensures once { Once }
    ensures cells { InCells }
    ensures rows { CutRows }
{
    true
}
