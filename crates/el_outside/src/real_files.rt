ghost use Rattle.std.specs.Prelude.{◌≡◌, ◌≤◌, ◌+◌, None, IfOk, vec_len};

use crate::{FileRead, FileWrite, Files, Many};
use std::alloc::Global;
use std::io::{ErrorKind, Read};
use std::rt::Files as FileSystem;
use std::{fs, io};

/// The files of the system, of whose contents it tells nothing. It counts each error as a fault, but
/// for want of memory, and each file that is not found as a miss.
#[derive(Drop)]
pub struct RealFiles<'r, R> {
    system: &'r R,
    faults: u64,
    misses: u64,
}

impl<'r, R: FileSystem> RealFiles<'r, R> {
    pub fn new(system: &'r R) -> RealFiles<'r, R>
        ensures faults { ⟦<RealFiles<'r, R> as Files>⟧.faults result ≡ 0 }
        ensures misses { ⟦<RealFiles<'r, R> as Files>⟧.misses result ≡ 0 }
    {
        RealFiles {
            system,
            faults: 0,
            misses: 0,
        }
    }
}

fn read_front<R: FileSystem>(
    system: &R,
    alloc: Global,
    name: &str,
    limit: u32,
) -> io::Result<Vec<u8>>
    ensures { IfOk result (λ v. vec_len v ≤ limit + 1) }
{
    let mut bytes = Vec::new(alloc);
    let room = limit as usize + 1;
    fs::open(system, name)?
        .take(room as u64)
        .read_to_end(&mut bytes)?;
    // No contract says what a file gives, so the bound is set here.
    bytes.truncate(room);
    Ok(bytes)
}

impl<'r, R: FileSystem> Files for RealFiles<'r, R> {
    ghost stored = { λ _. None };

    ghost faults = { λ f. f.faults };

    ghost misses = { λ f. f.misses };

    fn read(&mut self, alloc: Global, name: &str, limit: u32) -> FileRead {
        match read_front(self.system, alloc, name, limit) {
            Ok(bytes) => FileRead::Bytes(Many::from_vec(bytes)),
            Err(e) => match e.kind() {
                ErrorKind::NotFound => {
                    self.misses = self.misses.saturating_add(1);
                    FileRead::Missing
                }
                ErrorKind::OutOfMemory => FileRead::NoMemory,
                _ => {
                    self.faults = self.faults.saturating_add(1);
                    FileRead::Failed
                }
            },
        }
    }

    fn write(&mut self, name: &str, bytes: &[u8]) -> FileWrite {
        match fs::write(self.system, name, bytes) {
            Ok(()) => FileWrite::Done,
            Err(e) => match e.kind() {
                ErrorKind::OutOfMemory => FileWrite::NoMemory,
                _ => {
                    self.faults = self.faults.saturating_add(1);
                    FileWrite::Failed
                }
            },
        }
    }
}
