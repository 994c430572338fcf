//! Calls the table of needs on types and a signature that no text has, and prints what it saw. The arguments name lists of rows; a
//! row says what it shows, and has its terms in words (`case_terms`).
#![tactic(auto)]

mod asking;
mod rows;

use asking::show_row;
use case_terms::Fault;
use std::{env, fs};

fn show_list(rt: &HostRuntime, list: &str) -> Result<(), Fault> {
    let rows = fs::read_to_string(rt, list)?;
    for row in rows.lines() {
        if !row.as_bytes().starts_with(b"#") {
            show_row(rt, row)?;
        }
    }
    Ok(())
}

fn main(rt: HostRuntime) -> Result<(), Fault> {
    for list in env::args(&rt)?.skip(1) {
        show_list(&rt, list.as_str())?;
    }
    Ok(())
}
