// Where a list of splits is wrong, and which of its blocks covers an index.
ghost use Rattle.std.specs.Prelude.{◌≡◌, MatchOption, drop};
ghost use Rattle.splits.specs.Completing.{split_completes};
ghost use Rattle.splits.specs.Splits.{Covered, covering, split_rule};
ghost use Rattle.wrong_lists.specs.Lists.{first_wrong, Legal, WrongAt};

use wrong_lists::{ListRule, first_wrong};

// The rule of the splits of a side of this size.
#[derive(Clone, Copy)]
struct SplitRule {
    size: usize,
}

impl ListRule for SplitRule {
    type Entry = u16;

    ghost may = { λ r. split_rule r.size };

    ghost completes = { λ r. split_completes r.size };

    fn may_stand(&self, k: usize, before: Option<u16>, here: Option<u16>) -> bool
        ensures value { result ≡ split_rule self.now.size k before here }
    {
        match (before, here) {
            (None, None) => false,
            (None, Some(x)) => k == 0 && x == 0,
            (Some(p), None) => p as usize == self.size,
            (Some(p), Some(x)) => p < x
                && x as usize <= self.size
                && (k < 32 || k == 32 && x as usize == self.size),
        }
    }
}

// The first index at which the splits of a side of this size are wrong, if any.
pub fn first_wrong_split(size: usize, splits: &[u16]) -> Option<usize>
    ensures value { result ≡ first_wrong (split_rule size) splits.now }
    ensures law { MatchOption result (Legal (split_rule size) splits.now) (λ i. WrongAt (split_rule size) splits.now i) }
{
    first_wrong(&SplitRule { size }, splits)
}

// The splits behind the first. A `skip` costs a loop at each step of a chain.
fn behind_first(splits: &[u16]) -> &[u16]
    ensures { result.now ≡ drop 1 splits.now }
{
    match splits {
        [_, later @ ..] => later,
        [] => splits,
    }
}

// The block of a side that covers index `i`, for splits that begin with 0 and pass `i`.
pub fn covering_block(splits: &[u16], i: usize) -> usize
    ensures value { result ≡ covering splits.now i }
    ensures law { Covered }
{
    behind_first(splits)
        .iter()
        .take_while(|split| **split as usize <= i)
        .count()
}
