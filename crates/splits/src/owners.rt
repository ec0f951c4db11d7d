// Where a table of owners is wrong.
ghost use Rattle.std.specs.Prelude.{◌≡◌, MatchOption};
ghost use Rattle.splits.specs.Completing.{owner_completes};
ghost use Rattle.splits.specs.Owners.{owner_rule};
ghost use Rattle.wrong_lists.specs.Lists.{first_wrong, Legal, WrongAt};

use wrong_lists::{ListRule, first_wrong};

// The rule of the owners of so many blocks, on so many boards.
#[derive(Clone, Copy)]
struct OwnerRule {
    blocks: usize,
    boards: usize,
}

impl ListRule for OwnerRule {
    type Entry = u8;

    ghost may = { λ r. owner_rule r.blocks r.boards };

    ghost completes = { λ r. owner_completes r.blocks r.boards };

    fn may_stand(&self, k: usize, _before: Option<u8>, here: Option<u8>) -> bool
        ensures value { result ≡ owner_rule self.now.blocks self.now.boards k _before here }
    {
        match here {
            None => k == self.blocks,
            Some(owner) => k < self.blocks && (owner as usize) < self.boards,
        }
    }
}

// The first index at which the owners of so many blocks, on so many boards, are wrong, if any.
pub fn first_wrong_owner(blocks: usize, boards: usize, owners: &[u8]) -> Option<usize>
    ensures value { result ≡ first_wrong (owner_rule blocks boards) owners.now }
    ensures law { MatchOption result (Legal (owner_rule blocks boards) owners.now) (λ i. WrongAt (owner_rule blocks boards) owners.now i) }
{
    first_wrong(&OwnerRule { blocks, boards }, owners)
}
