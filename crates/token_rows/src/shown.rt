use agda_layout::Laid;
use agda_lexer::TokenKind;
use std::fmt;

/// The kind of a token, as it is printed.
#[derive(Drop)]
pub struct ShownKind(pub TokenKind);

impl fmt::Display for ShownKind {
    fn fmt<W: fmt::Write>(&self, f: &mut fmt::Formatter<W>) -> fmt::Result {
        match self.0 {
            TokenKind::Name => write!(f, "Name"),
            TokenKind::Qualified => write!(f, "Qualified"),
            TokenKind::Keyword(word) => write!(f, "Keyword {word:?}"),
            TokenKind::Symbol(symbol) => write!(f, "Symbol {symbol:?}"),
            TokenKind::SetLevel(level) => {
                let number = level.number();
                write!(f, "SetLevel {number}")
            }
            TokenKind::Hole => write!(f, "Hole"),
            TokenKind::Underscore => write!(f, "Underscore"),
        }
    }
}

/// A token by its number, or a sign of a block with its place: `{` begins one, `}` ends it and `;` is between its items.
#[derive(Drop)]
pub struct ShownSign(pub Laid);

impl fmt::Display for ShownSign {
    fn fmt<W: fmt::Write>(&self, f: &mut fmt::Formatter<W>) -> fmt::Result {
        let (sign, pos) = match self.0 {
            Laid::Tok(number) => return write!(f, "{number}"),
            Laid::Open(pos) => ('{', pos),
            Laid::Next(pos) => (';', pos),
            Laid::Close(pos) => ('}', pos),
        };
        let line = pos.line;
        let col = pos.col;
        write!(f, "{sign}{line}:{col}")
    }
}
