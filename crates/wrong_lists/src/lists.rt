// Lists under a rule: the search for the first wrong index, and the law of wrong lists.
ghost use Rattle.std.specs.Prelude.{◌≡◌, MatchOption, true};
ghost use Rattle.wrong_lists.specs.Lists.{Completes, Legal, RuleOf, WrongAt, WrongLists, first_wrong};

// A rule of lists: what may stand at an index right after another entry, the end of a list being an entry too.
pub trait ListRule {
    type Entry: Copy;

    ghost may: { Self → RuleOf Self.Entry };

    // Whether `here` may stand at index `k` right after `before`: None stands before the first entry, and for
    // the end of the list.
    fn may_stand(&self, k: usize, before: Option<Self::Entry>, here: Option<Self::Entry>) -> bool
        ensures value { result ≡ may self.now k before here };

    // What may stand can be followed to the end of a legal list.
    ghost completes: { (r : Self) → Completes (may r) };
}

// The first index at which a list is wrong, if any.
pub fn first_wrong<R: ListRule>(rule: &R, items: &[R::Entry]) -> Option<usize>
    ensures value { result ≡ first_wrong (R.may rule.now) items.now }
    ensures law { MatchOption result (Legal (R.may rule.now) items.now) (λ i. WrongAt (R.may rule.now) items.now i) }
{
    let mut before: Option<R::Entry> = None;
    for (k, here) in items.iter().enumerate() {
        if !rule.may_stand(k, before, Some(*here)) {
            return Some(k);
        }
        before = Some(*here);
    }
    if rule.may_stand(items.len(), before, None) {
        None
    } else {
        Some(items.len())
    }
}

// Names the law: of a rule whose beginnings can all be completed, the first forbidden index of a list
// is the first up to which no legal list agrees with it. It answers true.
pub fn wrong_lists_stand() -> bool
    ensures value { result ≡ true }
    ensures law { WrongLists }
{
    true
}
