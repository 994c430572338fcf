//! Why the kernel refuses a declaration.

use core_kernel::{FamilyError, KernelError};
use core_terms::NoMemory;
use std::alloc::{AllocError, AllocFailed};

/// Why a declaration or a case tree is refused, or that there was not enough memory.
#[derive(Clone, Copy, Debug, PartialEq, Eq)]
pub enum DeclError {
    /// One of its terms is refused. It is never want of memory.
    Kernel(KernelError),
    /// A constructor has another number of indices than its family.
    ConShape,
    /// The level of a constructor's argument is above the family's.
    TooBig,
    /// No rule has a node of the tree, or a branch is not the one that unification gives.
    BadTree,
    NoMemory,
}

impl From<KernelError> for DeclError {
    ghost use Rattle.std.specs.Prelude.{◌≡◌};
    ghost use Rattle.tree_kernel.specs.Answers.{of_term};

    ghost from_gives = { λ e f. f ≡ of_term e };

    fn from(e: KernelError) -> DeclError {
        match e {
            KernelError::NoMemory => DeclError::NoMemory,
            e => DeclError::Kernel(e),
        }
    }
}

impl From<FamilyError> for DeclError {
    ghost use Rattle.std.specs.Prelude.{◌≡◌};
    ghost use Rattle.tree_kernel.specs.Answers.{of_family};

    ghost from_gives = { λ e f. f ≡ of_family e };

    fn from(e: FamilyError) -> DeclError {
        match e {
            FamilyError::Kernel(e) => DeclError::Kernel(e),
            FamilyError::ConShape => DeclError::ConShape,
            FamilyError::TooBig => DeclError::TooBig,
            FamilyError::NoMemory => DeclError::NoMemory,
        }
    }
}

impl From<NoMemory> for DeclError {
    ghost use Rattle.std.specs.Prelude.{◌≡◌};
    ghost use Rattle.tree_kernel.specs.declared.error.DeclError.TheVariants as D;

    ghost from_gives = { λ _ e. e ≡ D.NoMemory };

    fn from(_: NoMemory) -> DeclError {
        DeclError::NoMemory
    }
}

impl<T: Drop> From<AllocFailed<T>> for DeclError {
    ghost use Rattle.std.specs.Prelude.{◌≡◌};
    ghost use Rattle.tree_kernel.specs.declared.error.DeclError.TheVariants as D;

    ghost from_gives = { λ _ e. e ≡ D.NoMemory };

    fn from(_: AllocFailed<T>) -> DeclError {
        DeclError::NoMemory
    }
}

impl From<AllocError> for DeclError {
    ghost use Rattle.std.specs.Prelude.{◌≡◌};
    ghost use Rattle.tree_kernel.specs.declared.error.DeclError.TheVariants as D;

    ghost from_gives = { λ _ e. e ≡ D.NoMemory };

    fn from(_: AllocError) -> DeclError {
        DeclError::NoMemory
    }
}
