//! Why a left side is refused, and where.

ghost use Rattle.std.specs.Prelude.{◌≡◌};
ghost use Rattle.lhs_elab.specs.declared.error.LhsError.TheVariants as E;

use core_terms::{NoMemory, Telescope, TermId};
use el_outside::Pos;
use std::alloc::{AllocError, AllocFailed};

/// A left side is refused at a place, or there was not enough memory.
#[derive(Debug, Drop)]
pub enum LhsError {
    Bad { pos: Pos, kind: LhsKind },
    NoMemory,
}

/// Why it is refused.
#[derive(Debug, Drop)]
pub enum LhsKind {
    /// A constructor pattern whose type is no data type and no record that is not coinductive, or has not this constructor.
    CannotSplit,
    /// No rule applies to these head forms, of which the constructor's index is on the left. They stand in this context.
    UnifyStuck {
        context: Telescope,
        left: TermId,
        right: TermId,
    },
    /// `()` at a type that is no data type, or of which a constructor is left.
    NotAbsurd,
    /// A pattern or a projection that the type does not allow, a wrong number of patterns of a constructor, or too many patterns to
    /// be inserted.
    WrongArity,
    /// Braces where no implicit argument is left to take them.
    NoSuchName,
    /// A constructor pattern for a variable that a split has solved.
    ForcedConstructor,
    /// A constructor pattern whose index can not be that of the type.
    Impossible,
    OutOfFuel,
    OutOfDepth,
}

/// The refusal at this place.
pub(crate) fn refused(pos: Pos, kind: LhsKind) -> LhsError
    ensures { result ≡ E.Bad pos kind }
{
    LhsError::Bad { pos, kind }
}

impl From<NoMemory> for LhsError {
    ghost use Rattle.std.specs.Prelude.{◌≡◌};
    ghost use Rattle.lhs_elab.specs.declared.error.LhsError.TheVariants as E;

    ghost from_gives = { λ _ e. e ≡ E.NoMemory };

    fn from(_: NoMemory) -> LhsError {
        LhsError::NoMemory
    }
}

impl<T: Drop> From<AllocFailed<T>> for LhsError {
    ghost use Rattle.std.specs.Prelude.{◌≡◌};
    ghost use Rattle.lhs_elab.specs.declared.error.LhsError.TheVariants as E;

    ghost from_gives = { λ _ e. e ≡ E.NoMemory };

    fn from(_: AllocFailed<T>) -> LhsError {
        LhsError::NoMemory
    }
}

impl From<AllocError> for LhsError {
    ghost use Rattle.std.specs.Prelude.{◌≡◌};
    ghost use Rattle.lhs_elab.specs.declared.error.LhsError.TheVariants as E;

    ghost from_gives = { λ _ e. e ≡ E.NoMemory };

    fn from(_: AllocError) -> LhsError {
        LhsError::NoMemory
    }
}
