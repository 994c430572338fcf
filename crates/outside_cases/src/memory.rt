//! Devices in memory: those that fail at planned calls, and those that never fail.
use crate::fault::Fault;
use crate::shown::{put, read, take, text_of, write};
use el_outside::{
    Files, MemoryFiles, MemorySink, MemorySource, Source, SureFiles, SureSink, SureSource,
};

/// What a sink holds.
fn holds<R: Print + AllocGlobal>(rt: &R, name: &str, bytes: &[u8]) -> Result<(), Fault> {
    let held = text_of(rt, bytes)?;
    println!(rt; "{name} holds [{held}]")?;
    Ok(())
}

/// The second of three calls fails; the others take two bytes at most.
fn memory_sink<R: Print + AllocGlobal>(rt: &R) -> Result<(), Fault> {
    let fails = Vec::from_slice(rt.alloc(), &[2])?;
    let mut sink = MemorySink::new(rt.alloc(), 2, fails)?;
    put(rt, "memory sink", &mut sink, b"abc")?;
    put(rt, "memory sink", &mut sink, b"c")?;
    put(rt, "memory sink", &mut sink, b"c")?;
    holds(rt, "memory sink", sink.bytes())
}

fn sure_sink<R: Print + AllocGlobal>(rt: &R) -> Result<(), Fault> {
    let mut sure = SureSink::new(rt.alloc(), 2)?;
    put(rt, "sure sink", &mut sure, b"abc")?;
    put(rt, "sure sink", &mut sure, b"c")?;
    holds(rt, "sure sink", sure.bytes())
}

/// Some calls, each for eight bytes.
fn takes<R: Print + AllocGlobal, S: Source>(
    rt: &R,
    name: &str,
    source: &mut S,
    calls: u32,
) -> Result<(), Fault> {
    let mut buffer = [0_u8; 8];
    for _ in 0..calls {
        take(rt, name, source, &mut buffer)?;
    }
    Ok(())
}

/// The second of five calls fails and leaves the bytes, of which each call gives two at most.
fn memory_source<R: Print + AllocGlobal>(rt: &R) -> Result<(), Fault> {
    let bytes = Vec::from_slice(rt.alloc(), b"abc")?;
    let fails = Vec::from_slice(rt.alloc(), &[2])?;
    let mut source = MemorySource::new(bytes, 2, fails);
    takes(rt, "memory source", &mut source, 5)
}

fn sure_source<R: Print + AllocGlobal>(rt: &R) -> Result<(), Fault> {
    let mut sure = SureSource::new(Vec::from_slice(rt.alloc(), b"abc")?, 2);
    takes(rt, "sure source", &mut sure, 3)
}

fn held<R: Print + AllocGlobal>(rt: &R, files: &MemoryFiles, name: &str) -> Result<(), Fault> {
    match files.bytes(name) {
        Some(bytes) => {
            let text = text_of(rt, bytes)?;
            println!(rt; "memory files: {name} holds [{text}]")?;
        }
        None => println!(rt; "memory files: {name} holds nothing")?,
    }
    Ok(())
}

/// The third of the counted calls, a write, fails.
fn third_call<R: Print + AllocGlobal>(rt: &R, files: &mut MemoryFiles) -> Result<(), Fault> {
    read(rt, "memory files", files, "a", 1)?;
    write(rt, "memory files", files, "b", b"d")?;
    write(rt, "memory files", files, "a", b"e")?;
    held(rt, files, "a")
}

fn later_calls<R: Print + AllocGlobal>(rt: &R, files: &mut MemoryFiles) -> Result<(), Fault> {
    read(rt, "memory files", files, "c", 1)?;
    write(rt, "memory files", files, "a", b"f")?;
    held(rt, files, "a")?;
    held(rt, files, "b")?;
    held(rt, files, "c")
}

/// To place a file is no counted call.
fn memory_files<R: Print + AllocGlobal>(rt: &R) -> Result<(), Fault> {
    let fails = Vec::from_slice(rt.alloc(), &[3])?;
    let mut files = MemoryFiles::new(rt.alloc(), fails)?;
    files.place("a", b"abc")?;
    third_call(rt, &mut files)?;
    later_calls(rt, &mut files)
}

fn file_calls<R: Print + AllocGlobal, F: Files>(rt: &R, files: &mut F) -> Result<(), Fault> {
    read(rt, "sure files", files, "a", 9)?;
    write(rt, "sure files", files, "a", b"abcde")?;
    read(rt, "sure files", files, "a", 3)?;
    read(rt, "sure files", files, "a", 0)
}

fn sure_files<R: Print + AllocGlobal>(rt: &R) -> Result<(), Fault> {
    let mut files = SureFiles::new(rt.alloc())?;
    file_calls(rt, &mut files)?;
    write(rt, "sure files", &mut files, "a", b"")?;
    read(rt, "sure files", &mut files, "a", 9)
}

pub fn all<R: Print + AllocGlobal>(rt: &R) -> Result<(), Fault> {
    memory_sink(rt)?;
    sure_sink(rt)?;
    memory_source(rt)?;
    sure_source(rt)?;
    memory_files(rt)?;
    sure_files(rt)
}
