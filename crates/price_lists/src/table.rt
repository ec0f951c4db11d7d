// The tariff of a price list that the station lends: a latency and a price per byte for each sender and receiver.
ghost use Rattle.std.specs.Prelude.{◌≡◌, ℕ, ◌*◌, ◌≤◌, true, length, None, slice_index};
ghost use Rattle.faults.specs.Answers.{Answers};
ghost use Rattle.faults.specs.declared.fault.Call.{Call};
ghost use Rattle.faults.specs.declared.fault.Layer.{Layer};
ghost use Rattle.price_lists.specs.Tables.{SamplePrice, price_limit, table_refusal, table_price};
ghost use Rattle.price_lists.specs.TableLaws.{table_laws};

use bounded_lists::check_list;
use faults::Fault;
use tariffs::check::check_boards;
use tariffs::limits::{MOST_LATENCY, MOST_RATE};
use tariffs::{Question, Tariff};

#[derive(Clone, Copy)]
pub struct Table<'a> {
    boards: usize,
    prices: &'a [u32],
    ghost least: { 1 ≤ boards },
    ghost most: { boards ≤ 16 },
    ghost sized: { length prices.now ≡ 2 * (boards * boards) },
    ghost bounded: { (k : ℕ) → slice_index prices.now k ≤ price_limit boards k },
}

impl<'a> Table<'a> {
    // Refuses what makes no tariff.
    pub fn check(boards: usize, prices: &[u32]) -> Result<(), Fault>
        ensures answer { Answers Layer.Tariffs Call.Make (table_refusal boards prices.now) result (λ _. Unit {0}) (Unit {0}) }
    {
        check_boards(boards)?;
        let cells = boards * boards;
        check_list(prices, 2 * cells, cells, MOST_LATENCY, MOST_RATE)
    }

    // The tariff of a list, or why there is none.
    pub fn try_new(boards: usize, prices: &'a [u32]) -> Result<Table<'a>, Fault>
        ensures answer { Answers Layer.Tariffs Call.Make (table_refusal boards prices.now) result (λ t. (t.boards ≡ boards) × (t.prices.now ≡ prices.now)) (Unit {0}) }
    {
        Table::check(boards, prices)?;
        Ok(Table::new(boards, prices))
    }

    // The tariff of a list that `check` lets pass. It cannot fail, so it asks for a list that is legal.
    pub fn new(boards: usize, prices: &'a [u32]) -> Table<'a>
        requires legal { table_refusal boards prices.now ≡ None }
        ensures count { result.boards ≡ boards }
        ensures list { result.prices.now ≡ prices.now }
    {
        Table { boards, prices }
    }
}

impl<'a> Tariff for Table<'a> {
    ghost boards = { λ t. t.boards };

    ghost cost = { λ t. table_price t.boards t.prices.now };

    ghost laws = { λ t. table_laws t.boards t.prices.now t.bounded t.least t.most };

    fn board_count(&self) -> usize {
        self.boards
    }

    fn price(&self, question: Question) -> Result<u64, Fault> {
        question.check(self.boards)?;
        if question.bytes == 0 {
            return Ok(0);
        }
        let latencies = self.boards * self.boards;
        let cell = question.sender * self.boards + question.receiver;
        let latency = self.prices[cell] as u64;
        let rate = self.prices[latencies + cell] as u64;
        Ok(latency + rate * question.bytes as u64)
    }
}

// Names a worked example of the definition. It answers true.
pub fn sample_price_stands() -> bool
    ensures sample { SamplePrice }
    ensures value { result ≡ true }
{
    true
}
