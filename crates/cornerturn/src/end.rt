// How the program ends without success, with status 1.
use std::alloc::AllocError;
use std::io;

#[derive(Drop)]
pub enum End {
    // What is wrong has been told.
    Told,
    NoMemory,
    Broken(io::Error),
}

impl End {
    // The end once what is wrong has been told, or could not be.
    pub fn told(telling: io::Result<()>) -> End {
        match telling {
            Ok(()) => End::Told,
            Err(error) => End::Broken(error),
        }
    }
}

impl From<io::Error> for End {
    fn from(error: io::Error) -> End {
        End::Broken(error)
    }
}

impl From<AllocError> for End {
    fn from(_e: AllocError) -> End {
        End::NoMemory
    }
}
