// The law of least bills.
ghost use Rattle.std.specs.Prelude.{◌≡◌, true};
ghost use Rattle.assignment_laws.specs.Namings.{LeastBills};

// Names the law: feasible prices that are tight at a naming make its bill the least of all namings' bills.
// It answers true.
pub fn least_bills_stand() -> bool
    ensures law { LeastBills }
    ensures answer { result ≡ true }
{
    true
}
