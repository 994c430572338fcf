use el_outside::{NoMemory, Pos};
use std::alloc::AllocError;

/// Why a list of tokens is refused.
#[derive(Clone, Copy, Debug, PartialEq, Eq)]
pub enum ParseKind {
    /// No text of the grammar begins with the tokens up to this one, or the text ends too early.
    Unexpected,
    /// The token stands in more than 200 parentheses, braces, bodies of `λ` and right sides of arrows.
    TooNested,
}

#[derive(Clone, Copy, Debug, PartialEq, Eq)]
pub enum ParseError {
    /// At the first token that is refused, or at the end of the text.
    Bad { pos: Pos, kind: ParseKind },
    /// There was not enough memory.
    NoMemory,
}

impl From<AllocError> for ParseError {
    ghost use Rattle.std.specs.Prelude.{◌≡◌};
    ghost use Rattle.agda_grammar.specs.declared.error.ParseError.TheVariants.{NoMemory};

    ghost from_gives = { λ _ e. e ≡ NoMemory };

    fn from(_: AllocError) -> ParseError {
        ParseError::NoMemory
    }
}

impl From<NoMemory> for ParseError {
    ghost use Rattle.std.specs.Prelude.{◌≡◌};
    ghost use Rattle.agda_grammar.specs.declared.error.ParseError.TheVariants.{NoMemory};

    ghost from_gives = { λ _ e. e ≡ NoMemory };

    fn from(_: NoMemory) -> ParseError {
        ParseError::NoMemory
    }
}
