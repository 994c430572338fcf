use el_base::Level;
use el_outside::{Many, Pos, Span};
use std::alloc::{AllocError, AllocFailed};

/// A reserved word. The language uses some of them; the others are kept from being names.
#[derive(Clone, Copy, Debug, PartialEq, Eq)]
pub enum Word {
    Abstract,
    Coinductive,
    Constructor,
    Data,
    Do,
    EtaEquality,
    Field,
    Hiding,
    Import,
    In,
    Inductive,
    Infix,
    Infixl,
    Infixr,
    Instance,
    Let,
    Macro,
    Module,
    Mutual,
    NoEtaEquality,
    Open,
    Overlap,
    Pattern,
    Postulate,
    Primitive,
    Private,
    Prop,
    Public,
    Quote,
    Record,
    Renaming,
    Rewrite,
    Syntax,
    Unquote,
    Using,
    Variable,
    Where,
    With,
}

/// A symbol. `→` and `->` are one arrow, `λ` and `\` one lambda, `∀` and `forall` one `All`.
#[derive(Clone, Copy, Debug, PartialEq, Eq)]
pub enum Sym {
    ParenOpen,
    ParenClose,
    BraceOpen,
    BraceClose,
    Semicolon,
    Dot,
    Colon,
    Equals,
    Arrow,
    Lambda,
    All,
    Bar,
}

/// What a token is. The text of a name stands at the token's span.
#[derive(Clone, Copy, Debug, PartialEq, Eq)]
pub enum TokenKind {
    Name,
    /// A name, a dot and a name, with nothing between.
    Qualified,
    Keyword(Word),
    Symbol(Sym),
    /// `Set` and its level; `Set` alone has level 0.
    SetLevel(Level),
    /// `?`, or `{!` up to its `!}`.
    Hole,
    Underscore,
}

#[derive(Clone, Copy, Debug, PartialEq, Eq)]
pub struct Token {
    pub kind: TokenKind,
    pub span: Span,
    /// Where the span begins.
    pub pos: Pos,
}

/// The tokens of a text.
#[derive(Debug, Drop)]
pub struct Lexed {
    /// In the order of the text.
    pub tokens: Many<Token>,
    /// Where the first comment or pragma begins.
    pub comment: Option<Pos>,
}

/// Why no token begins at a place.
#[derive(Clone, Copy, Debug, PartialEq, Eq)]
pub enum LexKind {
    /// A symbol or a run that the language does not have.
    BadToken,
    /// A pragma whose first word is not `TERMINATING`, `NON_TERMINATING` or `BUILTIN`.
    BadPragma,
    /// A comment or a pragma without its end.
    OpenComment,
    /// A hole without its end.
    OpenHole,
}

#[derive(Clone, Copy, Debug, PartialEq, Eq)]
pub enum LexError {
    /// The first place of the text at which no token, comment or white space stands.
    Bad { pos: Pos, kind: LexKind },
    /// There was not enough memory.
    NoMemory,
}

impl From<AllocError> for LexError {
    ghost use Rattle.std.specs.Prelude.{◌≡◌};
    ghost use Rattle.agda_lexer.specs.declared.token.LexError.TheVariants.{NoMemory};

    ghost from_gives = { λ _ e. e ≡ NoMemory };

    fn from(_: AllocError) -> LexError {
        LexError::NoMemory
    }
}

impl<T: Drop> From<AllocFailed<T>> for LexError {
    ghost use Rattle.std.specs.Prelude.{◌≡◌};
    ghost use Rattle.agda_lexer.specs.declared.token.LexError.TheVariants.{NoMemory};

    ghost from_gives = { λ _ e. e ≡ NoMemory };

    fn from(_: AllocFailed<T>) -> LexError {
        LexError::NoMemory
    }
}
