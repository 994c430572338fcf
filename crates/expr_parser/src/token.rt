ghost use Rattle.std.specs.Prelude.{◌≡◌, IfOk};
ghost use Rattle.expr_parser.specs.Token as spec;

use agda_grammar::{Kind, Mark, Sign};
use agda_lexer::{Sym, Token, TokenKind, Word};
use el_base::Level;
use source_tree::Place;
use std::alloc::{AllocError, Global};

fn kind_of_word(word: Word) -> Kind
    ensures { result ≡ spec.kind_of_word word }
{
    match word {
        Word::Coinductive => Kind::Coinductive,
        Word::Constructor => Kind::Constructor,
        Word::Data => Kind::Data,
        Word::Field => Kind::Field,
        Word::Inductive => Kind::Inductive,
        Word::Module => Kind::Module,
        Word::Open => Kind::Open,
        Word::Postulate => Kind::Postulate,
        Word::Public => Kind::Public,
        Word::Record => Kind::Record,
        Word::Where => Kind::Where,
        _ => Kind::Other,
    }
}

fn kind_of_sym(sym: Sym) -> Kind
    ensures { result ≡ spec.kind_of_sym sym }
{
    match sym {
        Sym::ParenOpen => Kind::ParenOpen,
        Sym::ParenClose => Kind::ParenClose,
        Sym::BraceOpen => Kind::BraceOpen,
        Sym::BraceClose => Kind::BraceClose,
        Sym::Semicolon => Kind::Semicolon,
        Sym::Dot => Kind::Dot,
        Sym::Colon => Kind::Colon,
        Sym::Equals => Kind::Equals,
        Sym::Arrow => Kind::Arrow,
        Sym::Lambda => Kind::Lambda,
        Sym::All => Kind::All,
        Sym::Bar => Kind::Other,
    }
}

fn kind_of(kind: TokenKind) -> Kind
    ensures { result ≡ spec.kind_of kind }
{
    match kind {
        TokenKind::Name => Kind::Name,
        TokenKind::Qualified => Kind::Qualified,
        TokenKind::Keyword(word) => kind_of_word(word),
        TokenKind::Symbol(sym) => kind_of_sym(sym),
        TokenKind::SetLevel(_) => Kind::SetLevel,
        TokenKind::Hole => Kind::Hole,
        TokenKind::Underscore => Kind::Underscore,
    }
}

fn level_of(kind: TokenKind) -> Level
    ensures { result ≡ spec.level_of kind }
{
    match kind {
        TokenKind::SetLevel(level) => level,
        _ => Level::zero(),
    }
}

/// What the grammar sees of a token.
pub fn sign_of(token: &Token) -> Sign
    ensures value { result ≡ spec.sign_of token.now }
{
    Sign {
        kind: kind_of(token.kind),
        mark: Mark {
            place: Place {
                span: token.span,
                pos: token.pos,
            },
            level: level_of(token.kind),
        },
    }
}

/// What the grammar sees of each of the tokens.
pub fn signs_of(alloc: Global, tokens: &[Token]) -> Result<Vec<Sign>, AllocError>
    ensures { IfOk result (λ v. v.items ≡ spec.signs_of tokens.now) }
{
    let mut signs = Vec::new(alloc);
    for token in tokens {
        signs.push(sign_of(token))?;
    }
    Ok(signs)
}
