use crate::fault::Fault;
use crate::shown::{ShownKind, ShownSign};
use agda_layout::{LayoutError, lay_out};
use agda_lexer::{LexError, LexKind, Lexed, Token, lex};
use el_outside::Pos;
use std::alloc::Global;
use std::rt::Files;
use std::{fs, io};

/// The tokens of a text, or the refusal of the lexer.
fn lex_text(alloc: Global, text: &str) -> Result<Result<Lexed, (Pos, LexKind)>, Fault> {
    if text.len() > u32::MAX as usize - 2 {
        return Err(Fault::TooLong);
    }
    match lex(alloc, text) {
        Ok(lexed) => Ok(Ok(lexed)),
        Err(LexError::Bad { pos, kind }) => Ok(Err((pos, kind))),
        Err(LexError::NoMemory) => Err(Fault::NoMemory),
    }
}

fn print_token(rt: &impl Print, token: &Token) -> io::Result<()> {
    let kind = ShownKind(token.kind);
    let start = token.span.start;
    let end = token.span.end;
    let line = token.pos.line;
    let col = token.pos.col;
    println!(rt; "  {kind} {start}-{end} at {line}:{col}")
}

fn print_refusal(rt: &impl Print, pos: Pos, kind: LexKind) -> io::Result<()> {
    let line = pos.line;
    let col = pos.col;
    println!(rt; "  {kind:?} at {line}:{col}")
}

/// Prints a text's name, its tokens, and where its first comment or pragma begins; or its name and its refusal.
pub fn print_tokens<R: Files + Print + AllocGlobal>(rt: &R, name: &str) -> Result<(), Fault> {
    let text = fs::read_to_string(rt, name)?;
    println!(rt; "{name}")?;
    let lexed = match lex_text(rt.alloc(), text.as_str())? {
        Ok(lexed) => lexed,
        Err((pos, kind)) => return Ok(print_refusal(rt, pos, kind)?),
    };
    for token in lexed.tokens.as_slice() {
        print_token(rt, token)?;
    }
    if let Some(pos) = lexed.comment {
        let line = pos.line;
        let col = pos.col;
        println!(rt; "  comment at {line}:{col}")?;
    }
    Ok(())
}

/// Prints the tokens of a text and the signs of their blocks in one line; or the refusal.
fn print_laid(rt: &impl Print, alloc: Global, tokens: &[Token]) -> Result<(), Fault> {
    if tokens.len() > u32::MAX as usize {
        return Err(Fault::TooLong);
    }
    match lay_out(alloc, tokens) {
        Ok(signs) => {
            print!(rt; " ")?;
            for sign in &signs {
                let sign = ShownSign(*sign);
                print!(rt; " {sign}")?;
            }
            println!(rt; "")?;
            Ok(())
        }
        Err(LayoutError::Outside { pos }) => {
            let line = pos.line;
            let col = pos.col;
            println!(rt; "  Outside at {line}:{col}")?;
            Ok(())
        }
        Err(LayoutError::NoMemory) => Err(Fault::NoMemory),
    }
}

/// Prints a text's name, and its blocks or the refusal.
pub fn print_blocks<R: Files + Print + AllocGlobal>(rt: &R, name: &str) -> Result<(), Fault> {
    let text = fs::read_to_string(rt, name)?;
    println!(rt; "{name}")?;
    match lex_text(rt.alloc(), text.as_str())? {
        Ok(lexed) => print_laid(rt, rt.alloc(), lexed.tokens.as_slice()),
        Err((pos, kind)) => Ok(print_refusal(rt, pos, kind)?),
    }
}
