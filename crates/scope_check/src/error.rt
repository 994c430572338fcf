use el_outside::{NoMemory, Pos, Text};
use std::alloc::AllocError;

/// Why a name is refused.
#[derive(Clone, Copy, Debug, PartialEq, Eq)]
pub enum ScopeKind {
    /// Nothing of this name is in scope, or no field where a field must stand.
    NotInScope,
    /// The name of a global is declared again, or that of a field in its record.
    Duplicate,
    /// A pattern with arguments whose name is no constructor.
    NotAConstructor,
    /// A variable that is bound twice in a left side.
    Nonlinear,
    /// A signature without its clause, a clause without its signature or without a right side, a field without an explicit
    /// argument, a hole in a dotted pattern, a projection in a constructor pattern, or `open` of a name that is no record.
    Misplaced,
}

#[derive(Debug, Drop)]
pub enum ScopeError {
    /// The first refusal from left to right. It stands at a name and carries it; for a hole it carries `?`.
    Bad {
        pos: Pos,
        kind: ScopeKind,
        name: Text,
    },
    /// There was not enough memory.
    NoMemory,
}

impl From<AllocError> for ScopeError {
    ghost use Rattle.std.specs.Prelude.{◌≡◌};
    ghost use Rattle.scope_check.specs.declared.error.ScopeError.TheVariants.{NoMemory};

    ghost from_gives = { λ _ e. e ≡ NoMemory };

    fn from(_: AllocError) -> ScopeError {
        ScopeError::NoMemory
    }
}

impl From<NoMemory> for ScopeError {
    ghost use Rattle.std.specs.Prelude.{◌≡◌};
    ghost use Rattle.scope_check.specs.declared.error.ScopeError.TheVariants.{NoMemory};

    ghost from_gives = { λ _ e. e ≡ NoMemory };

    fn from(_: NoMemory) -> ScopeError {
        ScopeError::NoMemory
    }
}
