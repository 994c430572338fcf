//! Why the walk over the declarations ends before its end.

ghost use Rattle.std.specs.Prelude.{◌≡◌};
ghost use Rattle.file_load.specs.Stops as spec;

use crate::errors::error_at;
use core_kernel::{FamilyError, KernelError};
use core_terms::NoMemory;
use data_elab::{DataError, DataKind};
use el_outside::Pos;
use elab_machine::{ElabKind, WrittenError};
use session_text::{KernelKind, LoadError, LoadKind};
use std::alloc::Global;

/// The first error, or there was not enough memory.
#[derive(Drop)]
pub enum Stop {
    Error(LoadError),
    NoMemory,
}

impl From<NoMemory> for Stop {
    ghost use Rattle.file_load.specs.declared.stop.Stop.TheVariants as S;

    ghost from_gives = { λ _ s. s ≡ S.NoMemory };

    fn from(_: NoMemory) -> Stop {
        Stop::NoMemory
    }
}

fn elab_kind(kind: &ElabKind) -> LoadKind
    ensures { result ≡ spec.kind_of_elab kind.now }
{
    match kind {
        ElabKind::Mismatch { .. } => LoadKind::Mismatch,
        ElabKind::DotWrong { .. } => LoadKind::DotWrong,
        ElabKind::NotAFunction { .. } => LoadKind::NotAFunction,
        ElabKind::NotARecord { .. } => LoadKind::NotARecord,
        ElabKind::NotAType { .. } => LoadKind::NotAType,
        ElabKind::NoSuchName => LoadKind::NoSuchName,
        ElabKind::CannotInfer => LoadKind::CannotInfer,
        ElabKind::BadField => LoadKind::BadField,
        ElabKind::OutOfFuel => LoadKind::OutOfFuel,
        ElabKind::OutOfDepth => LoadKind::OutOfDepth,
    }
}

/// An expression is refused where the written rules say.
pub fn not_elaborated(alloc: Global, error: WrittenError) -> Stop
    ensures { result ≡ spec.not_elaborated error }
{
    match error {
        WrittenError::Refused(e) => Stop::Error(error_at(alloc, e.pos, elab_kind(&e.kind))),
        WrittenError::NoMemory => Stop::NoMemory,
    }
}

/// The kernel refuses the declaration whose name stands at `pos`.
pub fn not_checked(alloc: Global, pos: Pos, error: KernelError) -> Stop
    ensures { result ≡ spec.not_checked pos error }
{
    let kind = match error {
        KernelError::Mismatch { .. } => LoadKind::Kernel(KernelKind::Mismatch),
        KernelError::NotAFunction { .. } => LoadKind::Kernel(KernelKind::NotAFunction),
        KernelError::NotARecord { .. } => LoadKind::Kernel(KernelKind::NotARecord),
        KernelError::NotAType { .. } => LoadKind::Kernel(KernelKind::NotAType),
        KernelError::LevelTooLarge => LoadKind::Kernel(KernelKind::LevelTooLarge),
        KernelError::MetaLeft { .. } => LoadKind::CannotInfer,
        KernelError::OutOfFuel => LoadKind::Kernel(KernelKind::OutOfFuel),
        KernelError::OutOfDepth => LoadKind::Kernel(KernelKind::OutOfDepth),
        KernelError::NoMemory => return Stop::NoMemory,
    };
    Stop::Error(error_at(alloc, pos, kind))
}

fn family_kind(kind: &DataKind) -> LoadKind
    ensures { result ≡ spec.kind_of_family kind.now }
{
    match kind {
        DataKind::BadSort => LoadKind::BadSort,
        DataKind::ConShape => LoadKind::ConShape,
        DataKind::TooBig => LoadKind::TooBig,
        DataKind::Elab(kind) => elab_kind(kind),
    }
}

/// A data or record declaration is refused where the written rules say.
pub fn family_not_elaborated(alloc: Global, error: DataError) -> Stop
    ensures { result ≡ spec.family_not_elaborated error }
{
    match error {
        DataError::Bad { pos, kind } => Stop::Error(error_at(alloc, pos, family_kind(&kind))),
        DataError::NoMemory => Stop::NoMemory,
    }
}

/// The kernel refuses the family whose name stands at `pos`.
pub fn family_not_checked(alloc: Global, pos: Pos, error: FamilyError) -> Stop
    ensures { result ≡ spec.family_not_checked pos error }
{
    match error {
        FamilyError::Kernel(error) => not_checked(alloc, pos, error),
        FamilyError::ConShape => {
            Stop::Error(error_at(alloc, pos, LoadKind::Kernel(KernelKind::ConShape)))
        }
        FamilyError::TooBig => {
            Stop::Error(error_at(alloc, pos, LoadKind::Kernel(KernelKind::TooBig)))
        }
        FamilyError::NoMemory => Stop::NoMemory,
    }
}
