use core_terms::NoMemory;
use std::alloc::{AllocError, AllocFailed};
use std::io;

/// Why the program stops before its end.
#[derive(Debug, Drop)]
pub enum Fault {
    NoMemory,
    /// An id that stands in no pool was handed in.
    Stray,
    /// A number was to come, and another term came.
    NoNumber,
    /// A line is no row.
    NoRow,
    /// The words are no term.
    NoTerm,
    /// The steps are no case tree.
    NoTree,
    Io(io::Error),
}

impl From<io::Error> for Fault {
    fn from(error: io::Error) -> Fault {
        Fault::Io(error)
    }
}

impl From<AllocError> for Fault {
    fn from(_: AllocError) -> Fault {
        Fault::NoMemory
    }
}

impl From<NoMemory> for Fault {
    fn from(_: NoMemory) -> Fault {
        Fault::NoMemory
    }
}

impl<T: Drop> From<AllocFailed<T>> for Fault {
    fn from(_: AllocFailed<T>) -> Fault {
        Fault::NoMemory
    }
}
