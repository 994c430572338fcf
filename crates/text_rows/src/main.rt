//! Texts and what `check` writes of them. The arguments name lists of files; a line of a list is the name of a text, and a
//! line that begins with `#` is a comment. After the texts come reports and errors that no text has so far.
#![tactic(auto)]

mod plain;

use el_outside::NoMemory;
use file_load::{Loaded, load};
use session_text::{error_bytes, report_bytes};
use std::alloc::Global;
use std::env::Env;
use std::io::{ErrorKind, Write};
use std::rt::Files;
use std::{env, fs, io};
use term_pool::Limits;

const LIMITS: Limits = Limits {
    fuel: 100_000,
    depth: 1_000,
    order: 0,
};

fn out_of_memory<T>(found: Result<T, NoMemory>) -> io::Result<T> {
    match found {
        Ok(found) => Ok(found),
        Err(_) => Err(io::Error::from(ErrorKind::OutOfMemory)),
    }
}

/// What `check` writes of a text.
fn answer(alloc: Global, text: &[u8]) -> Result<Vec<u8>, NoMemory> {
    match load(alloc, text, LIMITS) {
        Loaded::Error(error) => error_bytes(alloc, &error),
        Loaded::Done(file) => report_bytes(alloc, file.report()),
        Loaded::NoMemory => Err(NoMemory),
    }
}

fn put(rt: &impl Print, bytes: &[u8]) -> io::Result<()> {
    io::writer(rt).write_all(bytes)
}

fn show_text(rt: &(impl Files + Print + AllocGlobal), name: &str) -> io::Result<()> {
    println!(rt; "{name}")?;
    let text = fs::read(rt, name)?;
    let bytes = out_of_memory(answer(rt.alloc(), &text))?;
    put(rt, &bytes)
}

fn show_list(rt: &(impl Files + Print + AllocGlobal), list: &str) -> io::Result<()> {
    let names = fs::read_to_string(rt, list)?;
    for name in names.lines() {
        if !name.is_empty() && !name.as_bytes().starts_with(b"#") {
            show_text(rt, name)?;
        }
    }
    Ok(())
}

fn run(rt: &(impl Env + Files + Print + AllocGlobal)) -> io::Result<()> {
    for list in env::args(rt)?.skip(1) {
        show_list(rt, list.as_str())?;
    }
    let bytes = out_of_memory(plain::all(rt.alloc()))?;
    put(rt, &bytes)
}

fn main(rt: HostRuntime) -> io::Result<()> {
    run(&rt)
}
