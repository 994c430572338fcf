//! Why an expression is refused, and where.

ghost use Rattle.std.specs.Prelude.{◌≡◌};
ghost use Rattle.elab_machine.specs.Answers.{refused_at};

use core_terms::{NameId, NoMemory, Row, TermId};
use el_outside::Pos;
use std::alloc::{AllocError, AllocFailed};

/// Why an expression is refused. The ids are those of the call's pool.
#[derive(Debug, Drop)]
pub enum ElabKind {
    /// The type that is found, on the left, is not convertible to the wanted one: these are the first head forms that differ, and
    /// the names of the binders around them, outermost first.
    Mismatch {
        left: TermId,
        right: TermId,
        under: Row<NameId>,
    },
    /// The same of a dotted pattern, on the left, and its value.
    DotWrong {
        left: TermId,
        right: TermId,
        under: Row<NameId>,
    },
    /// A plain argument, or a lambda, at this head form.
    NotAFunction {
        ty: TermId,
    },
    /// A projection or a record value at this head form.
    NotARecord {
        ty: TermId,
    },
    /// The head form of a type's type is no sort.
    NotAType {
        ty: TermId,
    },
    /// An argument in braces that no implicit one takes.
    NoSuchName,
    /// Something is left out, at this place.
    CannotInfer,
    /// The labels of a record value are not its record's fields, each once.
    BadField,
    /// A head form needs more steps than the fuel.
    OutOfFuel,
    /// A comparison goes deeper than the depth.
    OutOfDepth,
}

/// A refusal at its place.
#[derive(Debug, Drop)]
pub struct ElabError {
    pub pos: Pos,
    pub kind: ElabKind,
}

/// An expression is refused, or there was not enough memory.
#[derive(Debug, Drop)]
pub enum WrittenError {
    Refused(ElabError),
    NoMemory,
}

/// The refusal at a place.
pub(crate) fn refused(pos: Pos, kind: ElabKind) -> WrittenError
    ensures { result ≡ refused_at pos kind }
{
    WrittenError::Refused(ElabError { pos, kind })
}

impl From<NoMemory> for WrittenError {
    ghost use Rattle.std.specs.Prelude.{◌≡◌};
    ghost use Rattle.elab_machine.specs.declared.error.WrittenError.TheVariants as W;

    ghost from_gives = { λ _ e. e ≡ W.NoMemory };

    fn from(_: NoMemory) -> WrittenError {
        WrittenError::NoMemory
    }
}

impl<T: Drop> From<AllocFailed<T>> for WrittenError {
    ghost use Rattle.std.specs.Prelude.{◌≡◌};
    ghost use Rattle.elab_machine.specs.declared.error.WrittenError.TheVariants as W;

    ghost from_gives = { λ _ e. e ≡ W.NoMemory };

    fn from(_: AllocFailed<T>) -> WrittenError {
        WrittenError::NoMemory
    }
}

impl From<AllocError> for WrittenError {
    ghost use Rattle.std.specs.Prelude.{◌≡◌};
    ghost use Rattle.elab_machine.specs.declared.error.WrittenError.TheVariants as W;

    ghost from_gives = { λ _ e. e ≡ W.NoMemory };

    fn from(_: AllocError) -> WrittenError {
        WrittenError::NoMemory
    }
}
