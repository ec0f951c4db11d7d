// A refusal by the book.
ghost use Rattle.std.specs.Prelude.{◌≡◌};

use faults::{Call, Fault};

// The book's call, and the whole fault of the layer that refused it: the book itself or one below.
#[derive(Clone, Copy)]
pub struct BookFault {
    pub call: Call,
    pub fault: Fault,
}

impl BookFault {
    pub(crate) fn new(call: Call, fault: Fault) -> BookFault
        ensures { result ≡ record { call = call; fault = fault } }
    {
        BookFault { call, fault }
    }
}
