//! Left sides of clauses over texts: what each clause of a function is checked to, and each refusal. A text is read as the program reads
//! it, and its declarations are walked in order; a function is known by its type alone, and nothing is said of right sides.
#![tactic(auto)]

mod fault;
mod page;
mod reading;
mod row;
mod world;

use core_terms::Limits;
use fault::Fault;
use row::{Detail, row};
use std::env::Env;
use std::io::ErrorKind;
use std::rt::Files;
use std::{env, fs, io};

/// Limits that no text reaches.
const AMPLE: Limits = Limits {
    fuel: 100_000,
    depth: 1_000,
    order: 0,
};

/// One step for each head form, and one level for each comparison.
const SMALL: Limits = Limits {
    fuel: 1,
    depth: 1,
    order: 0,
};

/// The limits for the texts below a folder.
fn limits(path: &str) -> Limits {
    if path.starts_with("limits/") {
        SMALL
    } else {
        AMPLE
    }
}

/// How the texts below a folder are shown.
fn detail(path: &str) -> Detail {
    if path.starts_with("large/") {
        Detail::Outline
    } else {
        Detail::Lines
    }
}

fn show(rt: &(impl Files + Print + AllocGlobal), path: &str) -> io::Result<()> {
    let text = fs::read_to_string(rt, path)?;
    println!(rt; "{path}")?;
    match row(rt.alloc(), text.as_str(), detail(path), limits(path)) {
        Ok(lines) => print!(rt; "{lines}"),
        Err(Fault::NotRead) => println!(rt; "    not read"),
        Err(_) => Err(io::Error::from(ErrorKind::OutOfMemory)),
    }
}

fn run(rt: &(impl Env + Files + Print + AllocGlobal)) -> io::Result<()> {
    for path in env::args(rt)?.skip(1) {
        show(rt, path.as_str())?;
    }
    Ok(())
}

fn main(rt: HostRuntime) -> io::Result<()> {
    run(&rt)
}
