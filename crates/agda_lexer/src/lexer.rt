ghost use Rattle.std.specs.Prelude.{◌≡◌, ◌+◌, ◌≤◌, ◌^◌, length, OnOk};
ghost use Rattle.agda_lexer.specs.Tokens as spec;
ghost use Rattle.agda_lexer.specs.Tokens.{Gives};
ghost use Rattle.agda_lexer.specs.Found.{found_of, added};

use crate::piece::{Piece, is_run, next_piece};
use crate::token::{LexError, Lexed, Token};
use el_outside::{Cursor, Many, Pos, Span};
use std::alloc::{AllocError, Global};

// Room for a token in every two bytes is taken before a text is read, but for no more tokens than
// these: a list that grows step by step is moved, and its new pages cost more than the reading.
const FIRST_ROOM: usize = 1 << 22;

/// What was found so far.
#[derive(Drop)]
pub struct Found {
    tokens: Vec<Token>,
    comment: Option<Pos>,
}

/// Adds a piece that begins at `pos`.
fn add(found: &mut Found, piece: Piece, pos: Pos, span: Span) -> Result<(), AllocError>
    ensures { OnOk result (found_of found.new ≡ added (found_of found.old) piece pos span) }
{
    match piece {
        Piece::White => {}
        Piece::Remark => {
            if found.comment.is_none() {
                found.comment = Some(pos);
            }
        }
        Piece::Sign(kind) | Piece::Run(kind) => found.tokens.push(Token { kind, span, pos })?,
    }
    Ok(())
}

/// The tokens of a text, in its order. A text has at most 2^32 - 2 bytes.
///
/// # Errors
///
/// The first place at which nothing stands that is white space, a comment or a token, with the kind
/// of what is wrong there; or want of memory.
pub fn lex(alloc: Global, text: &str) -> Result<Lexed, LexError>
    requires { length text.now + 2 ≤ 2 ^ 32 }
    ensures { Gives (spec.lex_of text.now) result }
{
    let mut found = Found {
        tokens: Vec::with_capacity(alloc, (text.len() / 2).min(FIRST_ROOM))?,
        comment: None,
    };
    let mut cursor = Cursor::new(text);
    let mut joined = false;
    'pieces: while let Some(c) = cursor.peek() {
        let pos = cursor.pos();
        let start = cursor.at();
        let piece = match next_piece(&mut cursor, joined, c) {
            Ok(piece) => piece,
            Err(kind) => return Err(LexError::Bad { pos, kind }),
        };
        let end = cursor.at();
        add(&mut found, piece, pos, Span { start, end })?;
        joined = is_run(piece);
    }
    Ok(Lexed {
        tokens: Many::from_vec(found.tokens),
        comment: found.comment,
    })
}
