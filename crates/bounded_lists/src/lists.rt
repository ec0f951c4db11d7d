// Where a list of bounded numbers is wrong.
ghost use Rattle.std.specs.Prelude.{◌≡◌, true};
ghost use Rattle.faults.specs.Answers.{Answers};
ghost use Rattle.faults.specs.declared.fault.Call.{Call};
ghost use Rattle.faults.specs.declared.fault.Layer.{Layer};
ghost use Rattle.bounded_lists.specs.Completing.{bounded_completes};
ghost use Rattle.bounded_lists.specs.Lists.{BoundedLists, bounded, limits, list_refusal};

use faults::{Call, Cause, Fault, Layer};
use wrong_lists::{ListRule, first_wrong};

// The rule of the lists of `len` numbers of which the first `head` are at most `high` and the others at most `low`.
#[derive(Clone, Copy)]
struct Bounded {
    len: usize,
    head: usize,
    high: u32,
    low: u32,
}

impl Bounded {
    fn limit(&self, k: usize) -> u32
        ensures value { result ≡ limits self.now.head self.now.high self.now.low k }
    {
        if k < self.head { self.high } else { self.low }
    }
}

impl ListRule for Bounded {
    type Entry = u32;

    ghost may = { λ r. bounded r.len (limits r.head r.high r.low) };

    ghost completes = { λ r. bounded_completes r.len (limits r.head r.high r.low) };

    fn may_stand(&self, k: usize, before: Option<u32>, here: Option<u32>) -> bool
        ensures value { result ≡ bounded self.now.len (limits self.now.head self.now.high self.now.low) k before here }
    {
        match here {
            None => k == self.len,
            Some(x) => k < self.len && x <= self.limit(k),
        }
    }
}

// Refuses a list that is wrong, with the first wrong index: `len` numbers, the first `head` at most `high` and the
// others at most `low`.
pub fn check_list(list: &[u32], len: usize, head: usize, high: u32, low: u32) -> Result<(), Fault>
    ensures answer { Answers Layer.Tariffs Call.Make (list_refusal (bounded len (limits head high low)) list.now) result (λ _. Unit {0}) (Unit {0}) }
{
    let rule = Bounded {
        len,
        head,
        high,
        low,
    };
    match first_wrong(&rule, list) {
        Some(index) => Err(Fault::new(Layer::Tariffs, Call::Make, Cause::Beyond { index })),
        None => Ok(()),
    }
}

// Names the fact that lets the law of wrong lists speak of price lists and charges. It answers true.
pub fn bounded_lists_stand() -> bool
    ensures law { BoundedLists }
    ensures value { result ≡ true }
{
    true
}
