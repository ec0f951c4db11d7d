// The charges of a surcharge, one for each receiver.
ghost use Rattle.std.specs.Prelude.{◌≡◌, ℕ, ◌≤◌, length, slice_index};
ghost use Rattle.faults.specs.Answers.{Answers};
ghost use Rattle.faults.specs.declared.fault.Call.{Call};
ghost use Rattle.faults.specs.declared.fault.Layer.{Layer};
ghost use Rattle.bounded_lists.specs.Lists.{list_refusal};
ghost use Rattle.surcharges.specs.Surcharges.{charge_rule, charge_table};

use bounded_lists::check_list;
use faults::Fault;
use tariffs::Tariff;
use tariffs::limits::{MOST_BOARDS, MOST_CHARGE};

#[derive(Clone, Copy)]
pub struct Charges {
    pub(crate) table: [u32; MOST_BOARDS],
    ghost sized: { length table ≡ 16 },
    ghost bounded: { (k : ℕ) → slice_index table k ≤ 1000 },
}

impl Charges {
    // The charges of `list`, which has one for each board of the tariff that they are laid on.
    pub fn new<T: Tariff>(inner: &T, list: &[u32]) -> Result<Charges, Fault>
        ensures answer { Answers Layer.Tariffs Call.Make (list_refusal (charge_rule (T.Tariff.boards inner.now)) list.now) result (λ c. c.table ≡ charge_table (T.Tariff.boards inner.now) list.now) (Unit {0}) }
    {
        let boards = inner.board_count();
        check_list(list, boards, boards, MOST_CHARGE, MOST_CHARGE)?;
        let mut table = [0; MOST_BOARDS];
        table[..boards].copy_from_slice(list);
        Ok(Charges { table })
    }
}
