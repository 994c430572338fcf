//! Names over texts: what each form of the language is resolved to, and each refusal of a name. A text is read as the program
//! reads it, and its declarations are resolved one after another, with a line for each.
#![tactic(auto)]

mod outline;
mod printer;
mod reading;
mod row;
mod variables;

use el_outside::NoMemory;
use row::{Detail, row};
use std::env::Env;
use std::io::ErrorKind;
use std::rt::Files;
use std::{env, fs, io};
use variables::places;

/// How the texts below a folder are shown.
fn detail(path: &str) -> Detail {
    if path.starts_with("large/") {
        Detail::Outline
    } else if path.starts_with("numbers/") {
        Detail::Numbers
    } else {
        Detail::Lines
    }
}

fn out_of_memory<T>(found: Result<T, NoMemory>) -> io::Result<T> {
    match found {
        Ok(found) => Ok(found),
        Err(_) => Err(io::Error::from(ErrorKind::OutOfMemory)),
    }
}

fn show(rt: &(impl Files + Print + AllocGlobal), path: &str) -> io::Result<()> {
    let text = fs::read_to_string(rt, path)?;
    let lines = out_of_memory(row(rt.alloc(), text.as_str(), detail(path)))?;
    println!(rt; "{path}")?;
    print!(rt; "{lines}")
}

fn run(rt: &(impl Env + Files + Print + AllocGlobal)) -> io::Result<()> {
    for path in env::args(rt)?.skip(1) {
        show(rt, path.as_str())?;
    }
    let lines = out_of_memory(places(rt.alloc()))?;
    print!(rt; "{lines}")
}

fn main(rt: HostRuntime) -> io::Result<()> {
    run(&rt)
}
