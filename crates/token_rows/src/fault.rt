use std::alloc::{AllocError, AllocFailed};
use std::io;

/// Why the program stops before its end.
#[derive(Debug, Drop)]
pub enum Fault {
    Usage,
    /// A text of 2^32 bytes or more.
    TooLong,
    NoMemory,
    Io(io::Error),
}

impl From<io::Error> for Fault {
    fn from(error: io::Error) -> Fault {
        Fault::Io(error)
    }
}

impl From<AllocError> for Fault {
    fn from(_: AllocError) -> Fault {
        Fault::NoMemory
    }
}

impl<T: Drop> From<AllocFailed<T>> for Fault {
    fn from(_: AllocFailed<T>) -> Fault {
        Fault::NoMemory
    }
}
