// The laws of overlays and packages.
ghost use Rattle.std.specs.Prelude.{◌≡◌, true};
ghost use Rattle.overlays.specs.Laws.{AddsUp, ByCells, InBlocks, Tiled, UnionOnce, Worked};

// Names the laws: two lists of splits have one union, the cells tile the target, each lies in one block of
// either side, a package's elements are those of its cells, all packages together have the matrix's
// elements, and the packages of a worked example. It answers true.
pub fn laws_stand() -> bool
    ensures value { result ≡ true }
    ensures once { UnionOnce }
    ensures tiled { Tiled }
    ensures blocks { InBlocks }
    ensures cells { ByCells }
    ensures sums { AddsUp }
    ensures bytes { Worked }
{
    true
}
