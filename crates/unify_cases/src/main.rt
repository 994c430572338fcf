//! Unifies indices that no text has, and prints the answers. The arguments name lists of rows; a row says what it shows, and has its
//! terms in words (`case_terms`), over the declarations before it.
#![tactic(auto)]

mod answers;
mod equations;
mod rows;
mod world;

use case_terms::Fault;
use rows::show_row;
use std::{env, fs};

fn show_list(rt: &HostRuntime, list: &str) -> Result<(), Fault> {
    let rows = fs::read_to_string(rt, list)?;
    let mut declared = Vec::new(rt.alloc());
    for row in rows.lines() {
        if row.as_bytes().starts_with(b"#") {
            continue;
        }
        match row.strip_prefix("declare|") {
            Some(words) => declared.push(words)?,
            None => show_row(rt, declared.as_slice(), row)?,
        }
    }
    Ok(())
}

fn main(rt: HostRuntime) -> Result<(), Fault> {
    for list in env::args(&rt)?.skip(1) {
        show_list(&rt, list.as_str())?;
    }
    Ok(())
}
