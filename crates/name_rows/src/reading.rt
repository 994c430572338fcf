use agda_layout::lay_out;
use agda_lexer::laws::lexed_tokens_rise;
use agda_lexer::lex;
use agda_parser::parse;
use el_outside::NoMemory;
use source_tree::File;
use std::alloc::Global;

/// The most bytes that a text may have.
const LIMIT: usize = 1_048_576;

/// The file of a text, unless a fault stands in it before names are looked at.
pub fn read(alloc: Global, text: &str) -> Result<Option<File>, NoMemory> {
    if text.len() > LIMIT {
        return Ok(None);
    }
    lexed_tokens_rise(text);
    let Ok(lexed) = lex(alloc, text) else {
        return Ok(None);
    };
    let Ok(laid) = lay_out(alloc, lexed.tokens.as_slice()) else {
        return Ok(None);
    };
    let Ok(file) = parse(alloc, text, lexed.tokens.as_slice(), laid.as_slice()) else {
        return Ok(None);
    };
    Ok(Some(file))
}
