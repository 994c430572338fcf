use el_outside::Pos;
use std::alloc::{AllocError, AllocFailed};

/// A token, by its number from 0 on, or a sign of a block at the place of the token before which it
/// stands. A sign behind all tokens has the place of the last one, or 1:1 where there is none.
#[derive(Clone, Copy, Debug, PartialEq, Eq)]
pub enum Laid {
    Tok(u32),
    /// The beginning of a block.
    Open(Pos),
    /// The border between two items of a block.
    Next(Pos),
    /// The end of a block.
    Close(Pos),
}

#[derive(Clone, Copy, Debug, PartialEq, Eq)]
pub enum LayoutError {
    /// At the first line that begins left of the file's block.
    Outside { pos: Pos },
    /// There was not enough memory.
    NoMemory,
}

impl From<AllocError> for LayoutError {
    ghost use Rattle.std.specs.Prelude.{◌≡◌};
    ghost use Rattle.agda_layout.specs.declared.laid.LayoutError.TheVariants.{NoMemory};

    ghost from_gives = { λ _ e. e ≡ NoMemory };

    fn from(_: AllocError) -> LayoutError {
        LayoutError::NoMemory
    }
}

impl<T: Drop> From<AllocFailed<T>> for LayoutError {
    ghost use Rattle.std.specs.Prelude.{◌≡◌};
    ghost use Rattle.agda_layout.specs.declared.laid.LayoutError.TheVariants.{NoMemory};

    ghost from_gives = { λ _ e. e ≡ NoMemory };

    fn from(_: AllocFailed<T>) -> LayoutError {
        LayoutError::NoMemory
    }
}
