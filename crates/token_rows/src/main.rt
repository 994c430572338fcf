//! Prints what the lexer and the layout answer to texts: of the texts that the first list names their tokens,
//! and of those that the second list names the signs of their blocks.
//!
//! usage: token_rows TOKENS.list LAYOUT.list, where a list has a file's name on each line
#![tactic(auto)]

mod fault;
mod rows;
mod shown;

use fault::Fault;
use rows::{print_blocks, print_tokens};
use std::{env, fs};

fn main(rt: HostRuntime) -> Result<(), Fault> {
    let words: Vec<String> = env::args(&rt)?.skip(1).collect(rt.alloc())?;
    let [tokens, blocks] = words.as_slice() else {
        return Err(Fault::Usage);
    };
    for name in fs::read_to_string(&rt, tokens.as_str())?.lines() {
        print_tokens(&rt, name)?;
    }
    for name in fs::read_to_string(&rt, blocks.as_str())?.lines() {
        print_blocks(&rt, name)?;
    }
    Ok(())
}
