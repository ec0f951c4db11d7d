// The surcharge over another tariff, and its charges.
#![tactic(auto)]

pub mod charges;
pub mod surcharge;

pub use charges::Charges;
pub use surcharge::Surcharge;
