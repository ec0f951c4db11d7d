// What moving a package costs: the trait that every tariff meets, what a tariff is asked, and the plain tariff.
#![tactic(auto)]

pub mod check;
pub mod limits;
pub mod plain;
pub mod question;
pub mod tariff;

pub use plain::Plain;
pub use question::Question;
pub use tariff::Tariff;
