ghost use Rattle.std.specs.Prelude.{◌≡◌, ◌∷◌, ◌<◌, ◌==◌, ◌&&◌, length, drop, MatchOption, OnOk, true, false};
ghost use Rattle.std.specs.Str.{encode_utf8_all};
ghost use Rattle.el_outside.specs.Place.{sees};
ghost use Rattle.agda_lexer.specs.Pieces as spec;
ghost use Rattle.agda_lexer.specs.Pieces.{Reads};

use crate::run::run_kind;
use crate::scan::{Class, is_special};
use crate::token::{LexKind, Sym, TokenKind};
use el_outside::{CharSet, Cursor, is_white};

/// What stands at a place. A sign is a token that no run is.
#[derive(Clone, Copy, Debug)]
pub enum Piece {
    White,
    /// A comment, or a pragma that is one.
    Remark,
    Sign(TokenKind),
    Run(TokenKind),
}

/// Whether `c`, which was read last, and the next character are these two.
fn are(c: char, cursor: &Cursor<'_>, first: char, second: char) -> bool
    ensures { result ≡ (c == first && sees second cursor.now.chars) }
{
    c == first && cursor.sees(second)
}

/// Passes the end of the comment or hole whose beginning was passed.
fn pass_close(cursor: &mut Cursor<'_>, mark: char) -> bool
    ensures { MatchOption (spec.close_of mark 0 cursor.old.place cursor.old.chars) (result ≡ false) (λ r. (result ≡ true) × (cursor.new ≡ r)) }
{
    let mut depth = 0;
    'inside: while let Some(c) = cursor.peek() {
        cursor.skip();
        if are(c, cursor, '{', mark) {
            cursor.skip();
            let at = cursor.at();
            prove!(depth < at);
            depth += 1;
        } else if are(c, cursor, mark, '}') {
            cursor.skip();
            if depth == 0 {
                return true;
            }
            depth -= 1;
        }
    }
    false
}

fn nested(
    cursor: &mut Cursor<'_>,
    mark: char,
    unclosed: LexKind,
    piece: Piece,
) -> Result<Piece, LexKind>
    ensures { Reads (spec.nested mark unclosed piece cursor.old) result cursor.new }
{
    if pass_close(cursor, mark) {
        Ok(piece)
    } else {
        Err(unclosed)
    }
}

/// Whether the end of a pragma comes next.
fn sees_close(cursor: &Cursor<'_>) -> bool
    ensures { result ≡ spec.is_close cursor.now.chars }
{
    let mut ahead = cursor.copy();
    if !ahead.sees('#') {
        return false;
    }
    ahead.skip();
    if !ahead.sees('-') {
        return false;
    }
    ahead.skip();
    ahead.sees('}')
}

/// Passes the end of the pragma.
fn pass_pragma_close(cursor: &mut Cursor<'_>) -> bool
    ensures { MatchOption (spec.pragma_close cursor.old.place cursor.old.chars) (result ≡ false) (λ r. (result ≡ true) × (cursor.new ≡ r)) }
{
    'inside: while cursor.peek().is_some() {
        if sees_close(cursor) {
            cursor.skip();
            cursor.skip();
            cursor.skip();
            return true;
        }
        cursor.skip();
    }
    false
}

/// Takes the rest of a word of a pragma.
fn pragma_word<'a>(cursor: &mut Cursor<'a>) -> &'a str
    ensures { result.now ≡ encode_utf8_all (spec.word_front cursor.old.chars) }
{
    let start = cursor.copy();
    'word: while let Some(c) = cursor.peek() {
        if is_white(c) || sees_close(cursor) {
            break;
        }
        cursor.skip();
    }
    start.up_to(cursor)
}

fn is_remark(word: &str) -> bool
    ensures { result ≡ spec.is_remark word.now }
{
    word == "TERMINATING" || word == "NON_TERMINATING" || word == "BUILTIN"
}

/// Whether the first word is one of a pragma that is a comment.
fn begins_remark(cursor: &Cursor<'_>) -> bool
    ensures { result ≡ spec.is_remark (encode_utf8_all (spec.first_word cursor.now)) }
{
    let mut ahead = cursor.copy();
    ahead.longest(&Class::White);
    is_remark(pragma_word(&mut ahead))
}

#[tactic(auto, unfolding(crate::specs::Pieces::pragma))]
fn pragma(cursor: &mut Cursor<'_>) -> Result<Piece, LexKind>
    ensures { Reads (spec.pragma cursor.old) result cursor.new }
{
    let known = begins_remark(cursor);
    if !pass_pragma_close(cursor) {
        Err(LexKind::OpenComment)
    } else if known {
        Ok(Piece::Remark)
    } else {
        Err(LexKind::BadPragma)
    }
}

fn comment(cursor: &mut Cursor<'_>) -> Result<Piece, LexKind>
    ensures { Reads (spec.comment cursor.old) result cursor.new }
{
    if cursor.sees('#') {
        cursor.skip();
        pragma(cursor)
    } else {
        nested(cursor, '-', LexKind::OpenComment, Piece::Remark)
    }
}

/// Reads what a brace opens.
#[tactic(auto, unfolding(crate::specs::Pieces::brace))]
fn brace(cursor: &mut Cursor<'_>) -> Result<Piece, LexKind>
    ensures { Reads (spec.brace cursor.old) result cursor.new }
{
    if cursor.sees('-') {
        cursor.skip();
        comment(cursor)
    } else if cursor.sees('!') {
        cursor.skip();
        nested(cursor, '!', LexKind::OpenHole, Piece::Sign(TokenKind::Hole))
    } else {
        Ok(Piece::Sign(TokenKind::Symbol(Sym::BraceOpen)))
    }
}

/// Takes the run that begins here.
fn take_run<'a>(cursor: &mut Cursor<'a>) -> &'a str
    ensures text { result.now ≡ encode_utf8_all (spec.run_front cursor.old.chars) }
    ensures after { cursor.new ≡ spec.run_past cursor.old }
{
    if cursor.sees('\\') {
        cursor.skip();
        "\\"
    } else {
        cursor.longest(&Class::Run)
    }
}

/// Takes the dot and the second part of a qualified name, if they follow the name that was taken.
fn name_kind(cursor: &mut Cursor<'_>) -> TokenKind
    ensures { spec.name_at cursor.old ≡ (result, cursor.new) }
{
    if !cursor.sees('.') {
        return TokenKind::Name;
    }
    let mut ahead = cursor.copy();
    ahead.skip();
    match run_kind(take_run(&mut ahead)) {
        Ok(TokenKind::Name) => {
            *cursor = ahead;
            TokenKind::Qualified
        }
        _ => TokenKind::Name,
    }
}

#[tactic(auto, unfolding(crate::specs::Pieces::run))]
fn run(cursor: &mut Cursor<'_>) -> Result<Piece, LexKind>
    ensures { Reads (spec.run cursor.old) result cursor.new }
{
    match run_kind(take_run(cursor))? {
        TokenKind::Name => Ok(Piece::Run(name_kind(cursor))),
        kind => Ok(Piece::Run(kind)),
    }
}

fn follows_dot(cursor: &Cursor<'_>) -> bool
    ensures { result ≡ spec.follows_dot cursor.now.chars }
{
    match cursor.peek() {
        Some(c) => Class::Run.has(c) || c == '(',
        None => false,
    }
}

fn dot(cursor: &Cursor<'_>, joined: bool) -> Result<Piece, LexKind>
    ensures { Reads (spec.dot joined cursor.now) result cursor.now }
{
    if !joined && follows_dot(cursor) {
        Ok(Piece::Sign(TokenKind::Symbol(Sym::Dot)))
    } else {
        Err(LexKind::BadToken)
    }
}

fn sign(c: char) -> Option<TokenKind>
    ensures { result ≡ spec.sign c }
{
    match c {
        '(' => Some(TokenKind::Symbol(Sym::ParenOpen)),
        ')' => Some(TokenKind::Symbol(Sym::ParenClose)),
        '}' => Some(TokenKind::Symbol(Sym::BraceClose)),
        ';' => Some(TokenKind::Symbol(Sym::Semicolon)),
        _ => None,
    }
}

/// Reads what stands at the place, whose first character is `c`. `joined` says whether a character
/// of a run stands before it.
#[tactic(auto, unfolding(crate::specs::Pieces::piece_at))]
fn piece_at(cursor: &mut Cursor<'_>, joined: bool, c: char) -> Result<Piece, LexKind>
    ensures { Reads (spec.piece_at joined c cursor.old) result cursor.new }
{
    if is_white(c) {
        cursor.skip();
        return Ok(Piece::White);
    }
    if c == '{' {
        cursor.skip();
        return brace(cursor);
    }
    if c == '-' && cursor.sees_second('-') {
        cursor.longest(&Class::Line);
        return Ok(Piece::Remark);
    }
    if c == '.' {
        cursor.skip();
        return dot(cursor, joined);
    }
    if !is_special(c) {
        return run(cursor);
    }
    cursor.skip();
    match sign(c) {
        Some(kind) => Ok(Piece::Sign(kind)),
        None => Err(LexKind::BadToken),
    }
}

/// The same, which moves on.
pub fn next_piece(cursor: &mut Cursor<'_>, joined: bool, c: char) -> Result<Piece, LexKind>
    requires { cursor.old.chars ≡ c ∷ drop 1 cursor.old.chars }
    ensures reads { Reads (spec.piece_at joined c cursor.old) result cursor.new }
    ensures takes { OnOk result (length cursor.new.chars < length cursor.old.chars) }
{
    piece_at(cursor, joined, c)
}

/// Whether a piece ends with a character of a run.
pub fn is_run(piece: Piece) -> bool
    ensures { result ≡ spec.is_run piece }
{
    match piece {
        Piece::Run(_) => true,
        _ => false,
    }
}
