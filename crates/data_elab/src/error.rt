//! Why a data or record declaration is refused, and where.

ghost use Rattle.std.specs.Prelude.{◌≡◌};
ghost use Rattle.data_elab.specs.Answers.{refused_at};

use core_terms::NoMemory;
use el_outside::Pos;
use elab_machine::{ElabKind, WrittenError};
use std::alloc::{AllocError, AllocFailed};

/// Why a declaration is refused. The ids are those of the call's pool.
#[derive(Debug, Drop)]
pub enum DataKind {
    /// The type after the colon does not end in a sort, or is none, for a record.
    BadSort,
    /// The type of a constructor does not end in its family at the family's own parameters.
    ConShape,
    /// The level of an argument or of a field is above the family's.
    TooBig,
    /// An expression is refused, or a head form that is tested needs more steps than the fuel.
    Elab(ElabKind),
}

/// A declaration is refused, at this place, or there was not enough memory.
#[derive(Debug, Drop)]
pub enum DataError {
    Bad { pos: Pos, kind: DataKind },
    NoMemory,
}

/// The refusal at a place.
pub(crate) fn refused(pos: Pos, kind: DataKind) -> DataError
    ensures { result ≡ refused_at pos kind }
{
    DataError::Bad { pos, kind }
}

impl From<WrittenError> for DataError {
    ghost use Rattle.std.specs.Prelude.{◌≡◌};
    ghost use Rattle.data_elab.specs.Answers.{in_declaration};

    ghost from_gives = { λ e d. d ≡ in_declaration e };

    fn from(e: WrittenError) -> DataError {
        match e {
            WrittenError::Refused(error) => DataError::Bad {
                pos: error.pos,
                kind: DataKind::Elab(error.kind),
            },
            WrittenError::NoMemory => DataError::NoMemory,
        }
    }
}

impl From<NoMemory> for DataError {
    ghost use Rattle.std.specs.Prelude.{◌≡◌};
    ghost use Rattle.data_elab.specs.declared.error.DataError.TheVariants as D;

    ghost from_gives = { λ _ e. e ≡ D.NoMemory };

    fn from(_: NoMemory) -> DataError {
        DataError::NoMemory
    }
}

impl<T: Drop> From<AllocFailed<T>> for DataError {
    ghost use Rattle.std.specs.Prelude.{◌≡◌};
    ghost use Rattle.data_elab.specs.declared.error.DataError.TheVariants as D;

    ghost from_gives = { λ _ e. e ≡ D.NoMemory };

    fn from(_: AllocFailed<T>) -> DataError {
        DataError::NoMemory
    }
}

impl From<AllocError> for DataError {
    ghost use Rattle.std.specs.Prelude.{◌≡◌};
    ghost use Rattle.data_elab.specs.declared.error.DataError.TheVariants as D;

    ghost from_gives = { λ _ e. e ≡ D.NoMemory };

    fn from(_: AllocError) -> DataError {
        DataError::NoMemory
    }
}
