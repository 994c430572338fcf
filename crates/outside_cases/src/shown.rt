//! One line for each call of a device.
ghost use Rattle.std.specs.Prelude.{◌<◌, length};

use crate::fault::Fault;
use el_outside::{FileRead, Files, Sink, Source};

/// Bytes as text.
pub fn text_of(rt: &impl AllocGlobal, bytes: &[u8]) -> Result<String, Fault> {
    Ok(String::from_utf8_lossy(rt.alloc(), bytes)?)
}

pub fn put<R: Print + AllocGlobal, S: Sink>(
    rt: &R,
    name: &str,
    sink: &mut S,
    bytes: &[u8],
) -> Result<(), Fault>
    requires { 0 < length bytes.now }
{
    let text = text_of(rt, bytes)?;
    let answer = sink.put(bytes);
    println!(rt; "{name}: put [{text}]: {answer:?}")?;
    Ok(())
}

pub fn take<R: Print + AllocGlobal, S: Source>(
    rt: &R,
    name: &str,
    source: &mut S,
    into: &mut [u8],
) -> Result<(), Fault>
    requires { 0 < length into.old }
{
    print!(rt; "{name}: ")?;
    match source.take(into) {
        Ok(n) => bracketed(rt, &into[..n]),
        Err(error) => {
            println!(rt; "{error:?}")?;
            Ok(())
        }
    }
}

pub fn read<R: Print + AllocGlobal, F: Files>(
    rt: &R,
    device: &str,
    files: &mut F,
    name: &str,
    limit: u32,
) -> Result<(), Fault> {
    print!(rt; "{device}: read {name} up to {limit}: ")?;
    let found = files.read(rt.alloc(), name, limit);
    answer(rt, &found)
}

fn answer<R: Print + AllocGlobal>(rt: &R, found: &FileRead) -> Result<(), Fault> {
    match found {
        FileRead::Bytes(bytes) => bracketed(rt, bytes.as_slice()),
        other => {
            println!(rt; "{other:?}")?;
            Ok(())
        }
    }
}

/// Bytes as text, in brackets.
fn bracketed<R: Print + AllocGlobal>(rt: &R, bytes: &[u8]) -> Result<(), Fault> {
    let text = text_of(rt, bytes)?;
    println!(rt; "[{text}]")?;
    Ok(())
}

pub fn write<R: Print, F: Files>(
    rt: &R,
    device: &str,
    files: &mut F,
    name: &str,
    bytes: &[u8],
) -> Result<(), Fault> {
    let answer = files.write(name, bytes);
    println!(rt; "{device}: write {name}: {answer:?}")?;
    Ok(())
}
