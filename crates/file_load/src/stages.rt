//! The load of a text: its stages in order, of which the first error ends it.

ghost use Rattle.std.specs.Prelude.{◌≡◌, ◌≤◌, ◌+◌, ◌^◌, length, IfOk, Ok};
ghost use Rattle.std.specs.Str.{chars};
ghost use Rattle.el_outside.specs.Place.{end_of as end_place, pos as pos_at, start};
ghost use Rattle.agda_layout.specs.Blocks as layout;
ghost use Rattle.file_load.specs.Passes.{error_at as told_at};
ghost use Rattle.file_load.specs.Load as spec;
ghost use Rattle.file_load.specs.Load.{IsLexed, limit};
ghost use Rattle.file_load.specs.LoadedFile.{Answers};
ghost use Rattle.file_load.specs.Stages.{FileAnswers, IsError, IsRead};
ghost use Rattle.session_text.specs.declared.error.LoadKind.TheVariants as kind;

use crate::errors::error_at;
use crate::judge::load_decls;
use crate::loaded_file::{Loaded, LoadedFile};
use crate::state::Core;
use crate::stop::Stop;
use crate::unbuilt::first_unbuilt;
use agda_layout::{Laid, LayoutError, lay_out};
use agda_lexer::laws::lexed_tokens_rise;
use agda_lexer::{LexError, LexKind, Lexed, lex};
use agda_parser::{ParseError, ParseKind, parse};
use core_terms::Limits;
use el_outside::{Cursor, LineTable, NoMemory, Pos};
use session_text::{LoadError, LoadKind};
use source_tree::File;
use std::alloc::Global;

/// The most bytes that a text may have.
const LIMIT: usize = 1_048_576;

fn lex_kind(kind: LexKind) -> LoadKind
    ensures { result ≡ spec.lex_kind kind }
{
    match kind {
        LexKind::BadToken => LoadKind::BadToken,
        LexKind::BadPragma => LoadKind::BadPragma,
        LexKind::OpenComment => LoadKind::OpenComment,
        LexKind::OpenHole => LoadKind::OpenHole,
    }
}

fn parse_kind(kind: ParseKind) -> LoadKind
    ensures { result ≡ spec.parse_kind kind }
{
    match kind {
        ParseKind::Unexpected => LoadKind::Unexpected,
        ParseKind::TooNested => LoadKind::TooNested,
    }
}

/// The place behind a text.
fn end_of(alloc: Global, text: &str) -> Result<Pos, NoMemory>
    requires { length text.now + 2 ≤ 2 ^ 32 }
    ensures { IfOk result (λ p. p ≡ pos_at (end_place (start (chars text.now)))) }
{
    let table = LineTable::new(alloc, text)?;
    Ok(table.pos(text.len() as u32))
}

/// The place of the first character that does not begin before the byte.
fn place_of(text: &str, byte: u32) -> Pos
    requires { length text.now + 2 ≤ 2 ^ 32 }
    ensures { result ≡ spec.place_of_byte text.now byte }
{
    let mut cursor = Cursor::new(text);
    'walk: while cursor.at() < byte {
        let Some(_) = cursor.next_char() else {
            return cursor.pos();
        };
    }
    cursor.pos()
}

/// A file that was read, or the error of its text.
#[derive(Drop)]
enum Reading {
    File(File),
    Error(LoadError),
}

fn parse_text(alloc: Global, text: &str, lexed: &Lexed, laid: &[Laid]) -> Result<Reading, NoMemory>
    requires lexes { IsLexed text.now lexed.now }
    requires lays { layout.laid lexed.now.tokens ≡ Ok laid.now }
    ensures { IfOk result (IsRead text.now) }
{
    match parse(alloc, text, lexed.tokens.as_slice(), laid) {
        Ok(file) => Ok(Reading::File(file)),
        Err(ParseError::Bad { pos, kind }) => Ok(Reading::Error(error_at(
            alloc,
            pos,
            parse_kind(kind),
        ))),
        Err(ParseError::NoMemory) => Err(NoMemory),
    }
}

fn lay_out_text(alloc: Global, text: &str, lexed: &Lexed) -> Result<Reading, NoMemory>
    requires { IsLexed text.now lexed.now }
    ensures { IfOk result (IsRead text.now) }
{
    lexed_tokens_rise(text);
    match lay_out(alloc, lexed.tokens.as_slice()) {
        Ok(laid) => parse_text(alloc, text, lexed, &laid),
        Err(LayoutError::Outside { pos }) => Ok(Reading::Error(error_at(
            alloc,
            pos,
            LoadKind::Layout,
        ))),
        Err(LayoutError::NoMemory) => Err(NoMemory),
    }
}

fn read_text(alloc: Global, text: &str) -> Result<Reading, NoMemory>
    requires { length text.now ≤ limit }
    ensures { IfOk result (IsRead text.now) }
{
    match lex(alloc, text) {
        Ok(lexed) => lay_out_text(alloc, text, &lexed),
        Err(LexError::Bad { pos, kind }) => Ok(Reading::Error(error_at(
            alloc,
            pos,
            lex_kind(kind),
        ))),
        Err(LexError::NoMemory) => Err(NoMemory),
    }
}

/// Loads a file whose forms are all built.
fn load_file(alloc: Global, file: &File, limits: Limits) -> Loaded
    ensures { FileAnswers limits.fuel limits.depth file.now result }
{
    let Ok(mut core) = Core::new(alloc) else {
        return Loaded::NoMemory;
    };
    match load_decls(&mut core, file.decls.as_slice(), limits) {
        Ok(()) => {
            let Core {
                scope,
                pool,
                signature,
                alloc,
            } = core;
            match LoadedFile::new(alloc, scope, pool, signature) {
                Ok(loaded) => Loaded::Done(loaded),
                Err(NoMemory) => Loaded::NoMemory,
            }
        }
        Err(Stop::Error(error)) => Loaded::Error(error),
        Err(Stop::NoMemory) => Loaded::NoMemory,
    }
}

/// Loads a text that is short enough.
fn load_text(alloc: Global, text: &str, limits: Limits) -> Loaded
    requires { length text.now ≤ limit }
    ensures { Answers limits.fuel limits.depth text.now result }
{
    let file = match read_text(alloc, text) {
        Ok(Reading::File(file)) => file,
        Ok(Reading::Error(error)) => return Loaded::Error(error),
        Err(NoMemory) => return Loaded::NoMemory,
    };
    match first_unbuilt(&file) {
        Some(byte) => {
            Loaded::Error(error_at(alloc, place_of(text, byte), LoadKind::Unsupported))
        }
        None => load_file(alloc, &file, limits),
    }
}

/// The error of bytes that are UTF-8 up to here.
fn not_utf8(alloc: Global, front: &str) -> Loaded
    requires { length front.now + 2 ≤ 2 ^ 32 }
    ensures { IsError result (told_at (pos_at (end_place (start (chars front.now)))) kind.NotUtf8) }
{
    match end_of(alloc, front) {
        Ok(pos) => Loaded::Error(error_at(alloc, pos, LoadKind::NotUtf8)),
        Err(NoMemory) => Loaded::NoMemory,
    }
}

/// Loads a text, with these limits for each head form and each comparison.
pub fn load(alloc: Global, text: &[u8], limits: Limits) -> Loaded
    ensures { Answers limits.fuel limits.depth text.now result }
{
    if text.len() > LIMIT {
        return Loaded::Error(error_at(alloc, Pos { line: 1, col: 1 }, LoadKind::TextTooLong));
    }
    match str::from_utf8(text) {
        Ok(text) => load_text(alloc, text, limits),
        Err(e) => {
            let front = match str::from_utf8(&text[..e.valid_up_to()]) {
                Ok(front) => front,
                Err(_) => unreachable!(),
            };
            not_utf8(alloc, front)
        }
    }
}
