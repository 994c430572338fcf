//! Calls the kernel on declarations and case trees, and prints what it answered. The arguments name lists of rows, with an empty line
//! between two; a row says what it shows, and has its terms and trees in words (`case_terms`). A declaration that is accepted is
//! declared for the rows after it.
#![tactic(auto)]

mod answers;
mod rows;
mod world;

use case_terms::Fault;
use rows::show_row;
use std::{env, fs};
use world::World;

fn show_list(rt: &HostRuntime, list: &str) -> Result<(), Fault> {
    let rows = fs::read_to_string(rt, list)?;
    let mut world = World::new(rt.alloc())?;
    for row in rows.split("\n\n") {
        show_row(rt, &mut world, row)?;
    }
    Ok(())
}

fn main(rt: HostRuntime) -> Result<(), Fault> {
    for list in env::args(&rt)?.skip(1) {
        show_list(&rt, list.as_str())?;
    }
    Ok(())
}
