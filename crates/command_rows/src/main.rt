//! Lists of words and what they ask for. The arguments name lists of files; a line of a list is the name of a file, and a
//! line that begins with `#` is a comment. A file has a word on each line. What is printed of it is the mode with its words
//! and the limits, or `usage` where the words ask for nothing.
#![tactic(auto)]

use command_line::{Ask, Mode, WordsError, read_words};
use std::alloc::Global;
use std::env::Env;
use std::io::ErrorKind;
use std::rt::Files;
use std::{env, fs, io};

/// The words of a file. Where one of them is not text there are none: so the program answers.
fn words_of(alloc: Global, bytes: Vec<u8>) -> io::Result<Vec<String>> {
    let mut words = Vec::new(alloc);
    if let Ok(text) = String::from_utf8(bytes) {
        for word in text.lines() {
            words.push(String::from_str(alloc, word)?)?;
        }
    }
    Ok(words)
}

fn show_ask(rt: &impl Print, name: &str, ask: &Ask) -> io::Result<()> {
    match &ask.mode {
        Mode::Check(file) => {
            let file = file.as_str();
            print!(rt; "{name}: check {file:?}")?;
        }
        Mode::Session => print!(rt; "{name}: session")?,
        Mode::Gen { seed, count } => print!(rt; "{name}: gen {seed} {count}")?,
    }
    let fuel = ask.limits.fuel;
    let depth = ask.limits.depth;
    let order = ask.limits.order;
    println!(rt; " fuel={fuel} depth={depth} order={order}")
}

fn show_words(rt: &(impl Files + Print + AllocGlobal), name: &str) -> io::Result<()> {
    let words = words_of(rt.alloc(), fs::read(rt, name)?)?;
    match read_words(rt.alloc(), words.as_slice()) {
        Ok(ask) => show_ask(rt, name, &ask),
        Err(WordsError::Refused) => println!(rt; "{name}: usage"),
        Err(WordsError::NoMemory) => Err(io::Error::from(ErrorKind::OutOfMemory)),
    }
}

fn show_list(rt: &(impl Files + Print + AllocGlobal), list: &str) -> io::Result<()> {
    let names = fs::read_to_string(rt, list)?;
    for name in names.lines() {
        if !name.as_bytes().starts_with(b"#") {
            show_words(rt, name)?;
        }
    }
    Ok(())
}

fn run(rt: &(impl Env + Files + Print + AllocGlobal)) -> io::Result<()> {
    for list in env::args(rt)?.skip(1) {
        show_list(rt, list.as_str())?;
    }
    Ok(())
}

fn main(rt: HostRuntime) -> io::Result<()> {
    run(&rt)
}
