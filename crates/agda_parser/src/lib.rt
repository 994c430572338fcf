//! Reads the syntax tree of a file from its tokens and their layout: declarations by descent, over the reading of expressions and
//! patterns, and then each clause to its signature. What the grammar has is read, and nothing else; where it has nothing, the
//! answer is the first token with which no text of the grammar begins so.
#![tactic(auto)]

mod decls;
mod group;
mod grown;
mod items;
mod laid;
pub mod laws;
mod lines;
mod one_file;
mod records;

pub use agda_grammar::{ParseError, ParseKind};
pub use expr_parser::parse_expr;
pub use one_file::parse;
