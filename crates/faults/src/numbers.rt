// The number of a cause, which is also its place in the order in which causes win.
ghost use Rattle.std.specs.Prelude.{◌≡◌};
ghost use Rattle.faults.specs.Numbers.{number_of};

use crate::cause::Cause;
use crate::fault::Fault;

impl Cause {
    pub fn number(&self) -> u32
        ensures value { result ≡ number_of self.now }
    {
        match self {
            Cause::Letter { .. } => 1,
            Cause::Board { .. } => 2,
            Cause::Size { .. } => 3,
            Cause::Splits { .. } => 4,
            Cause::Owners { .. } => 5,
            Cause::Share { .. } => 6,
            Cause::State { .. } => 7,
            Cause::Count { .. } => 8,
            Cause::Plan { .. } => 9,
            Cause::Pass => 10,
            Cause::Length { .. } => 11,
            Cause::Nothing { .. } => 12,
            Cause::Closed { .. } => 13,
            Cause::Frame { .. } => 14,
            Cause::Early { .. } => 15,
            Cause::Field { .. } => 16,
            Cause::Beyond { .. } => 17,
        }
    }
}

impl Fault {
    // The number of the fault's cause.
    pub fn number(&self) -> u32
        ensures value { result ≡ number_of self.now.cause }
    {
        self.cause.number()
    }
}
