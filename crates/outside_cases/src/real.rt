//! Files and streams of the system.
use crate::fault::Fault;
use crate::shown::{put, read, take, write};
use el_outside::{FileRead, Files as _, RealFiles, RealSink, RealSource, Source};
use std::alloc::Global;
use std::fs;
use std::fs::Permissions;
use std::os::unix::fs::PermissionsExt;
use std::rt::Files;

const NAME: &str = "outside_cases.out";

const LONG: usize = 70_001;

/// A file is read whole, and else up to one byte past the limit.
fn short_reads<R, F>(rt: &R, files: &mut F) -> Result<(), Fault>
where
    R: Print + AllocGlobal,
    F: el_outside::Files,
{
    read(rt, "real files", files, NAME, 9)?;
    read(rt, "real files", files, NAME, 4)?;
    read(rt, "real files", files, NAME, 3)?;
    read(rt, "real files", files, NAME, 0)
}

/// A write of no byte leaves an empty file.
fn short_file<R: Files + Print + AllocGlobal>(rt: &R) -> Result<(), Fault> {
    let mut files = RealFiles::new(rt);
    write(rt, "real files", &mut files, NAME, b"abcde")?;
    short_reads(rt, &mut files)?;
    write(rt, "real files", &mut files, NAME, b"")?;
    read(rt, "real files", &mut files, NAME, 9)
}

fn long_bytes(alloc: Global) -> Result<Vec<u8>, Fault> {
    let mut bytes = Vec::new(alloc);
    for i in 0..LONG {
        bytes.push((i % 251) as u8)?;
    }
    Ok(bytes)
}

/// How much of the long file is read up to a limit, and whether it is the front of what was written.
fn long_read(rt: &impl Print, limit: u32, found: &FileRead, bytes: &[u8]) -> Result<(), Fault> {
    print!(rt; "real files: read of {LONG} bytes up to {limit}: ")?;
    match found {
        FileRead::Bytes(found) => long_found(rt, found.as_slice(), bytes),
        _ => no_bytes(rt),
    }
}

fn long_found(rt: &impl Print, found: &[u8], bytes: &[u8]) -> Result<(), Fault> {
    let count = found.len();
    let same = bytes.starts_with(found);
    println!(rt; "{count} bytes, the same: {same}")?;
    Ok(())
}

fn no_bytes(rt: &impl Print) -> Result<(), Fault> {
    println!(rt; "none")?;
    Ok(())
}

fn long_reads<R, F>(rt: &R, files: &mut F, bytes: &[u8], limit: u32) -> Result<(), Fault>
where
    R: Print + AllocGlobal,
    F: el_outside::Files,
{
    let found = files.read(rt.alloc(), NAME, limit);
    long_read(rt, limit, &found, bytes)
}

/// A file of more than 64 KiB.
fn long_file<R: Files + Print + AllocGlobal>(rt: &R) -> Result<(), Fault> {
    let bytes = long_bytes(rt.alloc())?;
    let mut files = RealFiles::new(rt);
    files.write(NAME, bytes.as_slice());
    long_reads(rt, &mut files, bytes.as_slice(), 1_048_576)?;
    long_reads(rt, &mut files, bytes.as_slice(), 70_000)?;
    long_reads(rt, &mut files, bytes.as_slice(), 65_536)
}

fn close<R: Files + AllocGlobal>(rt: &R) -> Result<(), Fault> {
    fs::set_permissions(rt, NAME, Permissions::from_mode(0))?;
    Ok(())
}

fn remove<R: Files + AllocGlobal>(rt: &R) -> Result<(), Fault> {
    fs::remove_file(rt, NAME)?;
    Ok(())
}

fn closed_calls<R, F>(rt: &R, files: &mut F) -> Result<(), Fault>
where
    R: Print + AllocGlobal,
    F: el_outside::Files,
{
    read(rt, "real files", files, NAME, 9)?;
    write(rt, "real files", files, NAME, b"f")
}

/// A file that may be neither read nor written.
fn closed_file<R: Files + Print + AllocGlobal>(rt: &R) -> Result<(), Fault> {
    let mut files = RealFiles::new(rt);
    write(rt, "real files", &mut files, NAME, b"abcde")?;
    close(rt)?;
    closed_calls(rt, &mut files)?;
    remove(rt)
}

fn no_calls<R, F>(rt: &R, files: &mut F) -> Result<(), Fault>
where
    R: Print + AllocGlobal,
    F: el_outside::Files,
{
    read(rt, "real files", files, "outside_cases.none", 9)?;
    read(rt, "real files", files, ".", 9)?;
    write(rt, "real files", files, ".", b"a")
}

fn no_file<R: Files + Print + AllocGlobal>(rt: &R) -> Result<(), Fault> {
    no_calls(rt, &mut RealFiles::new(rt))
}

/// What is put into a file is taken from it again. A file that is open for reading takes nothing, a folder gives nothing,
/// and a writer that takes no byte has failed.
fn streams<R: Files + Print + AllocGlobal>(rt: &R) -> Result<(), Fault> {
    file_sink(rt)?;
    file_source(rt)?;
    closed_sink(rt)?;
    folder_source(rt)?;
    full_sink(rt)?;
    remove(rt)
}

fn file_sink<R: Files + Print + AllocGlobal>(rt: &R) -> Result<(), Fault> {
    let mut sink = RealSink::new(fs::create(rt, NAME)?);
    put(rt, "real sink", &mut sink, b"abc")
}

fn file_source<R: Files + Print + AllocGlobal>(rt: &R) -> Result<(), Fault> {
    let mut source = RealSource::new(fs::open(rt, NAME)?);
    three_takes(rt, &mut source)
}

fn three_takes<R, S>(rt: &R, source: &mut S) -> Result<(), Fault>
where
    R: Print + AllocGlobal,
    S: Source,
{
    let mut buffer = [0_u8; 2];
    for _ in 0..3 {
        take(rt, "real source", source, &mut buffer)?;
    }
    Ok(())
}

fn closed_sink<R: Files + Print + AllocGlobal>(rt: &R) -> Result<(), Fault> {
    let mut closed = RealSink::new(fs::open(rt, NAME)?);
    put(rt, "sink of a file open for reading", &mut closed, b"a")
}

fn folder_source<R: Files + Print + AllocGlobal>(rt: &R) -> Result<(), Fault> {
    let mut buffer = [0_u8; 2];
    let mut folder = RealSource::new(fs::open(rt, ".")?);
    take(rt, "source of a folder", &mut folder, &mut buffer)
}

fn full_sink<R: Print + AllocGlobal>(rt: &R) -> Result<(), Fault> {
    let mut room = [0_u8; 1];
    let mut full = RealSink::new(room.as_mut_slice());
    put(rt, "sink with room for one", &mut full, b"abc")?;
    put(rt, "sink with room for one", &mut full, b"bc")
}

pub fn all<R: Files + Print + AllocGlobal>(rt: &R) -> Result<(), Fault> {
    short_file(rt)?;
    long_file(rt)?;
    closed_file(rt)?;
    no_file(rt)?;
    streams(rt)
}
