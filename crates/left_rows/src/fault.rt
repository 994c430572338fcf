//! Why a text shows no left sides.

use core_terms::NoMemory;
use data_elab::DataError;
use el_outside::Pos;
use elab_machine::WrittenError;
use scope_check::ScopeError;
use std::alloc::{AllocError, AllocFailed};
use std::fmt;

/// A text shows no left sides, or no more of them.
#[derive(Debug, Drop)]
pub enum Fault {
    /// It is no text of the language.
    NotRead,
    /// Something beside the left sides is refused, at this place.
    NotDeclared(Pos),
    NoMemory,
}

impl From<ScopeError> for Fault {
    fn from(error: ScopeError) -> Fault {
        match error {
            ScopeError::Bad { pos, .. } => Fault::NotDeclared(pos),
            ScopeError::NoMemory => Fault::NoMemory,
        }
    }
}

impl From<WrittenError> for Fault {
    fn from(error: WrittenError) -> Fault {
        match error {
            WrittenError::Refused(error) => Fault::NotDeclared(error.pos),
            WrittenError::NoMemory => Fault::NoMemory,
        }
    }
}

impl From<DataError> for Fault {
    fn from(error: DataError) -> Fault {
        match error {
            DataError::Bad { pos, .. } => Fault::NotDeclared(pos),
            DataError::NoMemory => Fault::NoMemory,
        }
    }
}

impl From<NoMemory> for Fault {
    fn from(_: NoMemory) -> Fault {
        Fault::NoMemory
    }
}

impl<T: Drop> From<AllocFailed<T>> for Fault {
    fn from(_: AllocFailed<T>) -> Fault {
        Fault::NoMemory
    }
}

impl From<AllocError> for Fault {
    fn from(_: AllocError) -> Fault {
        Fault::NoMemory
    }
}
