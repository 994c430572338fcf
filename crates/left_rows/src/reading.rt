use crate::fault::Fault;
use agda_layout::lay_out;
use agda_lexer::laws::lexed_tokens_rise;
use agda_lexer::lex;
use agda_parser::parse;
use source_tree::File;
use std::alloc::Global;

/// The most bytes that a text may have.
const LIMIT: usize = 1_048_576;

/// The file of a text.
pub fn read(alloc: Global, text: &str) -> Result<File, Fault> {
    if text.len() > LIMIT {
        return Err(Fault::NotRead);
    }
    lexed_tokens_rise(text);
    let Ok(lexed) = lex(alloc, text) else {
        return Err(Fault::NotRead);
    };
    let Ok(laid) = lay_out(alloc, lexed.tokens.as_slice()) else {
        return Err(Fault::NotRead);
    };
    let Ok(file) = parse(alloc, text, lexed.tokens.as_slice(), laid.as_slice()) else {
        return Err(Fault::NotRead);
    };
    Ok(file)
}
