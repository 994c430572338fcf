//! Cuts a text into tokens, each with its place: the first of the passes that read a file. White
//! space, comments and pragmas are left out. The error is the first place at which nothing stands
//! that the language knows.
#![tactic(auto)]

pub mod laws;
mod lexer;
mod piece;
mod run;
mod scan;
mod token;

pub use lexer::lex;
pub use token::{LexError, LexKind, Lexed, Sym, Token, TokenKind, Word};
