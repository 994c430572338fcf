//! Why the kernel refuses a term or a family.

use core_terms::{MetaId, NoMemory, TermId};
use std::alloc::{AllocError, AllocFailed};

/// Why a term is refused, or that there was not enough memory.
#[derive(Clone, Copy, Debug, PartialEq, Eq)]
pub enum KernelError {
    /// The inferred type, on the left, is not convertible to the wanted one.
    Mismatch { left: TermId, right: TermId },
    /// The head form of a function's type is no function type of the argument's flag.
    NotAFunction { ty: TermId },
    /// The head form of the type of a projection's term is not the field's record.
    NotARecord { ty: TermId },
    /// The head form of a type's type is no sort.
    NotAType { ty: TermId },
    /// The type of a sort above 1,000,000 is asked.
    LevelTooLarge,
    /// A metavariable is met, or a head form or a comparison waits for it.
    MetaLeft { meta: MetaId },
    /// A head form, also one that a comparison takes, needs more steps than the fuel.
    OutOfFuel,
    /// A comparison goes deeper than the depth.
    OutOfDepth,
    NoMemory,
}

impl From<NoMemory> for KernelError {
    ghost use Rattle.std.specs.Prelude.{◌≡◌};
    ghost use Rattle.core_kernel.specs.declared.error.KernelError.TheVariants as E;

    ghost from_gives = { λ _ e. e ≡ E.NoMemory };

    fn from(_: NoMemory) -> KernelError {
        KernelError::NoMemory
    }
}

impl<T: Drop> From<AllocFailed<T>> for KernelError {
    ghost use Rattle.std.specs.Prelude.{◌≡◌};
    ghost use Rattle.core_kernel.specs.declared.error.KernelError.TheVariants as E;

    ghost from_gives = { λ _ e. e ≡ E.NoMemory };

    fn from(_: AllocFailed<T>) -> KernelError {
        KernelError::NoMemory
    }
}

impl From<AllocError> for KernelError {
    ghost use Rattle.std.specs.Prelude.{◌≡◌};
    ghost use Rattle.core_kernel.specs.declared.error.KernelError.TheVariants as E;

    ghost from_gives = { λ _ e. e ≡ E.NoMemory };

    fn from(_: AllocError) -> KernelError {
        KernelError::NoMemory
    }
}

/// Why a family is refused, or that there was not enough memory.
#[derive(Clone, Copy, Debug, PartialEq, Eq)]
pub enum FamilyError {
    /// One of its terms is refused. It is never want of memory.
    Kernel(KernelError),
    /// A constructor has another number of indices than the family.
    ConShape,
    /// The level of a constructor's argument is above the family's.
    TooBig,
    NoMemory,
}

impl From<KernelError> for FamilyError {
    ghost use Rattle.std.specs.Prelude.{◌≡◌};
    ghost use Rattle.core_kernel.specs.Answers.{in_family};

    ghost from_gives = { λ e f. f ≡ in_family e };

    fn from(e: KernelError) -> FamilyError {
        match e {
            KernelError::NoMemory => FamilyError::NoMemory,
            e => FamilyError::Kernel(e),
        }
    }
}

impl From<NoMemory> for FamilyError {
    ghost use Rattle.std.specs.Prelude.{◌≡◌};
    ghost use Rattle.core_kernel.specs.declared.error.FamilyError.TheVariants as F;

    ghost from_gives = { λ _ e. e ≡ F.NoMemory };

    fn from(_: NoMemory) -> FamilyError {
        FamilyError::NoMemory
    }
}

impl From<AllocError> for FamilyError {
    ghost use Rattle.std.specs.Prelude.{◌≡◌};
    ghost use Rattle.core_kernel.specs.declared.error.FamilyError.TheVariants as F;

    ghost from_gives = { λ _ e. e ≡ F.NoMemory };

    fn from(_: AllocError) -> FamilyError {
        FamilyError::NoMemory
    }
}
