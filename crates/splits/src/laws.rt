// The laws of blocks and places, which layouts, their overlay and every run rest on.
ghost use Rattle.std.specs.Prelude.{◌≡◌, true};
ghost use Rattle.splits.specs.Laws.{Apart, CoveredOnce, Filled, InParts, Stepped, Whole};

// Names the laws: each element has exactly one block, and all blocks together have the matrix's elements;
// under any naming of the owners each element's place is in its owner's part of the bank, no two are
// alike, and inside a block they go by equal steps. It answers true.
pub fn laws_stand() -> bool
    ensures value { result ≡ true }
    ensures once { CoveredOnce }
    ensures whole { Whole }
    ensures filled { Filled }
    ensures parts { InParts }
    ensures apart { Apart }
    ensures stepped { Stepped }
{
    true
}
