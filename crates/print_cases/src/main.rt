//! Prints terms, left sides and contexts over a signature that no text has, with names. The arguments name lists of rows, and what the
//! rows of each are; the head of each list says how a row is read. Terms are in words (`case_terms`).
#![tactic(auto)]

mod contexts;
mod declared;
mod patterns;
mod rows;
mod words;
mod world;

use case_terms::Fault;
use rows::{show_context, show_left, show_term};
use std::{env, fs};

fn show_row(rt: &HostRuntime, list: &str, row: &str) -> Result<(), Fault> {
    match list {
        "terms.txt" => show_term(rt, row),
        "lefts.txt" => show_left(rt, row),
        "contexts.txt" => show_context(rt, row),
        _ => Err(Fault::NoRow),
    }
}

fn show_list(rt: &HostRuntime, list: &str) -> Result<(), Fault> {
    let rows = fs::read_to_string(rt, list)?;
    for row in rows.lines() {
        if !row.as_bytes().starts_with(b"#") {
            show_row(rt, list, row)?;
        }
    }
    Ok(())
}

fn main(rt: HostRuntime) -> Result<(), Fault> {
    for list in env::args(&rt)?.skip(1) {
        show_list(&rt, list.as_str())?;
    }
    Ok(())
}
