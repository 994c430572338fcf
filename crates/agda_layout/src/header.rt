ghost use Rattle.std.specs.Prelude.{◌≡◌};
ghost use Rattle.agda_layout.specs.Headers as spec;

use agda_lexer::{Token, TokenKind, Word};

/// How a file begins.
#[derive(Clone, Copy, Debug)]
pub enum Header {
    /// Not with `module`.
    Absent,
    /// With `module`, a name and `where`.
    Whole,
    /// With `module`, and otherwise.
    Broken,
}

fn is_name(kind: TokenKind) -> bool
    ensures { result ≡ spec.is_name kind }
{
    match kind {
        TokenKind::Name | TokenKind::Qualified => true,
        _ => false,
    }
}

fn is_module(kind: TokenKind) -> bool
    ensures { result ≡ spec.is_module kind }
{
    match kind {
        TokenKind::Keyword(Word::Module) => true,
        _ => false,
    }
}

fn is_where(kind: TokenKind) -> bool
    ensures { result ≡ spec.is_where kind }
{
    match kind {
        TokenKind::Keyword(Word::Where) => true,
        _ => false,
    }
}

pub fn header_of(tokens: &[Token]) -> Header
    ensures { result ≡ spec.header_of tokens.now }
{
    match tokens {
        [first, ..] if !is_module(first.kind) => Header::Absent,
        [] => Header::Absent,
        [_, second, third, ..] if is_name(second.kind) && is_where(third.kind) => Header::Whole,
        _ => Header::Broken,
    }
}
