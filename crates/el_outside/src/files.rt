ghost use Rattle.std.specs.Prelude.{◌≡◌, ◌≤◌, ℕ};
ghost use Rattle.std.specs.declared.option.Option.{Option};
ghost use Rattle.el_outside.specs.Causes.{Rose};
ghost use Rattle.el_outside.specs.Stored.{FileMap, Gives, IsWithin, Stores};

use crate::Many;
use std::alloc::Global;

/// What a read of a file gave.
#[derive(Debug, Drop)]
pub enum FileRead {
    Bytes(Many<u8>),
    /// There is no file of this name, which the files have counted.
    Missing,
    /// The call failed, which the files have counted.
    Failed,
    NoMemory,
}

/// What a write of a file did.
#[derive(Clone, Copy, Debug, PartialEq, Eq)]
pub enum FileWrite {
    Done,
    /// The call failed, which the files have counted.
    Failed,
    NoMemory,
}

/// Files by their names.
pub trait Files {
    /// The bytes under each name, where they are told.
    ghost stored: { Self → Option FileMap };

    /// How often a call has failed.
    ghost faults: { Self → ℕ };

    /// How often a read has found no file of its name.
    ghost misses: { Self → ℕ };

    /// The first `limit + 1` bytes of the file, or all where it is shorter: so a caller sees whether
    /// a file is longer than its limit. A read changes no file.
    fn read(&mut self, alloc: Global, name: &str, limit: u32) -> FileRead
        ensures gives { Gives (stored self.old) name.now limit result }
        ensures within { IsWithin limit result }
        ensures same { stored self.new ≡ stored self.old }
        ensures faults { faults self.old ≤ faults self.new }
        ensures misses { misses self.old ≤ misses self.new }
        ensures failed { result ≡ FileRead.Failed → Rose (faults self.old) (faults self.new) }
        ensures missing { result ≡ FileRead.Missing → Rose (misses self.old) (misses self.new) };

    /// Gives the file of this name these bytes, and makes it where there is none. Where it is not
    /// done, that file may hold anything, and the others are as they were.
    fn write(&mut self, name: &str, bytes: &[u8]) -> FileWrite
        ensures stores { Stores (stored self.old) (stored self.new) name.now bytes.now result }
        ensures faults { faults self.old ≤ faults self.new }
        ensures misses { misses self.old ≤ misses self.new }
        ensures failed { result ≡ FileWrite.Failed → Rose (faults self.old) (faults self.new) };
}
