// Why a job goes no further. Both faults turn into it by `?`, for which the crate needs a type of its own.
use book::BookFault;
use faults::{Cause, Fault};

#[derive(Clone, Copy)]
pub struct Stop {
    pub cause: Cause,
}

impl From<Fault> for Stop {
    fn from(fault: Fault) -> Stop {
        Stop { cause: fault.cause }
    }
}

impl From<BookFault> for Stop {
    fn from(told: BookFault) -> Stop {
        Stop {
            cause: told.fault.cause,
        }
    }
}
