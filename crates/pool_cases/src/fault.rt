use std::alloc::AllocError;
use std::io;
use term_pool::NoMemory;

/// Why the program stops before its end.
#[derive(Debug, Drop)]
pub enum Fault {
    NoMemory,
    Io(io::Error),
}

impl From<io::Error> for Fault {
    fn from(error: io::Error) -> Fault {
        Fault::Io(error)
    }
}

impl From<AllocError> for Fault {
    fn from(_: AllocError) -> Fault {
        Fault::NoMemory
    }
}

impl From<NoMemory> for Fault {
    fn from(_: NoMemory) -> Fault {
        Fault::NoMemory
    }
}
