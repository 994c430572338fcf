ghost use Rattle.std.specs.Prelude.{◌≡◌, ◌≢◌, ◌↔◌, ◌≤◌, Some, OnOk, OnErr, IfOk, IsTrue};
ghost use Rattle.std.specs.Option.{option_copied};
ghost use Rattle.std.specs.Ordering.{nat_cmp};
ghost use Rattle.std.specs.Cmp.Lexicographic.{slice_cmp};
ghost use Rattle.std.specs.FinMap as map;
ghost use Rattle.el_outside.specs.Causes.{Rose};
ghost use Rattle.el_outside.specs.Planned.{fresh, fails_next, after_call};
ghost use Rattle.el_outside.specs.Memory.{misses_after};
ghost use Rattle.el_outside.specs.Stored.{Gives, IsWithin, Stores};

use crate::fail_plan::FailPlan;
use crate::{FileRead, FileWrite, Files, Many, NoMemory, Text};
use std::alloc::Global;
use std::marker::Model;

/// Files that are held here and never fail. Contracts see the bytes under each name, and how often
/// a read has found nothing.
#[derive(Drop)]
pub struct SureFiles {
    alloc: Global,
    /// The newest entry of a name counts.
    entries: Vec<(Text, Many<u8>)>,
    misses: u64,
}

impl Model for SureFiles {
    ghost use Rattle.std.specs.FinMap as map;
    ghost use Rattle.std.specs.Ordering.{nat_cmp};
    ghost use Rattle.std.specs.Cmp.Lexicographic.{slice_cmp};
    ghost use Rattle.el_outside.specs.Memory.{FilesState, files_code};

    ghost Value = { FilesState };

    ghost coded = { files_code };

    ghost view = { λ f. record { map = map.from_entries {R = slice_cmp nat_cmp} f.entries.items; misses = f.misses } };
}

impl SureFiles {
    /// Without files.
    pub fn new(alloc: Global) -> Result<SureFiles, NoMemory>
        ensures { IfOk result (λ f. f ≡ record { map = map.empty; misses = 0 }) }
    {
        Ok(SureFiles {
            alloc,
            entries: Vec::new(alloc),
            misses: 0,
        })
    }

    /// Gives the file of this name these bytes, and makes it where there is none.
    pub fn place(&mut self, name: &str, bytes: &[u8]) -> Result<(), NoMemory>
        ensures ok { OnOk result (self.new ≡ record self.old { map = map.insert self.old.map name.now bytes.now }) }
        ensures err { OnErr result (self.new ≡ self.old) }
    {
        let name = Text::from_str(self.alloc, name)?;
        let bytes = Many::from_vec(Vec::from_slice(self.alloc, bytes)?);
        self.entries.insert(0, (name, bytes))?;
        Ok(())
    }

    /// The bytes of the file of this name, if there is one. Takes no memory.
    pub fn bytes(&self, name: &str) -> Option<&[u8]>
        ensures { option_copied result ≡ map.get self.now.map name.now }
    {
        find(&self.entries, name)
    }
}

fn find<'a>(entries: &'a [(Text, Many<u8>)], name: &str) -> Option<&'a [u8]>
    ensures { option_copied result ≡ map.get (map.from_entries {R = slice_cmp nat_cmp} entries.now) name.now }
{
    for entry in entries {
        if name == entry.0.as_str() {
            return Some(entry.1.as_slice());
        }
    }
    None
}

impl Files for SureFiles {
    ghost stored = { λ f. Some f.map };

    ghost faults = { λ _. 0 };

    ghost misses = { λ f. f.misses };

    fn read(&mut self, alloc: Global, name: &str, limit: u32) -> FileRead
        ensures never_fails { result ≢ FileRead.Failed }
        ensures missed { self.new.misses ≡ misses_after self.old.misses result }
        ensures gives { Gives (Some self.old.map) name.now limit result }
        ensures within { IsWithin limit result }
        ensures same { Some self.new.map ≡ Some self.old.map }
        ensures misses { self.old.misses ≤ self.new.misses }
        ensures missing { result ≡ FileRead.Missing → Rose self.old.misses self.new.misses }
    {
        let Some(all) = find(&self.entries, name) else {
            self.misses = self.misses.saturating_add(1);
            return FileRead::Missing;
        };
        let n = all.len().min(limit as usize + 1);
        match Vec::from_slice(alloc, &all[..n]) {
            Ok(bytes) => FileRead::Bytes(Many::from_vec(bytes)),
            Err(_) => FileRead::NoMemory,
        }
    }

    fn write(&mut self, name: &str, bytes: &[u8]) -> FileWrite
        ensures never_fails { result ≢ FileWrite.Failed }
        ensures missed { self.new.misses ≡ self.old.misses }
        ensures kept { result ≢ FileWrite.Done → self.new ≡ self.old }
        ensures stores { Stores (Some self.old.map) (Some self.new.map) name.now bytes.now result }
        ensures misses { self.old.misses ≤ self.new.misses }
    {
        match self.place(name, bytes) {
            Ok(()) => FileWrite::Done,
            Err(_) => FileWrite::NoMemory,
        }
    }
}

/// Files that are held here, and whose calls of the numbers in `fails` fail.
#[derive(Drop)]
pub struct MemoryFiles {
    files: SureFiles,
    plan: FailPlan,
}

impl Model for MemoryFiles {
    ghost use Rattle.el_outside.specs.Memory.{FailingFiles, failing_files_code};

    ghost Value = { FailingFiles };

    ghost coded = { failing_files_code };

    ghost view = { λ f. record { files = f.files; plan = f.plan } };
}

impl MemoryFiles {
    /// Without files. Calls are counted from 1, reads and writes together.
    pub fn new(alloc: Global, fails: Vec<u64>) -> Result<MemoryFiles, NoMemory>
        ensures files { IfOk result (λ f. f.files ≡ record { map = map.empty; misses = 0 }) }
        ensures plan { IfOk result (λ f. f.plan ≡ fresh fails.items) }
    {
        Ok(MemoryFiles {
            files: SureFiles::new(alloc)?,
            plan: FailPlan::new(fails),
        })
    }

    /// Gives the file of this name these bytes, and makes it where there is none. It never fails by
    /// the plan, and is no call that the plan counts.
    pub fn place(&mut self, name: &str, bytes: &[u8]) -> Result<(), NoMemory>
        ensures ok { OnOk result (self.new.files ≡ record self.old.files { map = map.insert self.old.files.map name.now bytes.now }) }
        ensures err { OnErr result (self.new.files ≡ self.old.files) }
        ensures plan { self.new.plan ≡ self.old.plan }
    {
        self.files.place(name, bytes)
    }

    /// The bytes of the file of this name, if there is one. Takes no memory.
    pub fn bytes(&self, name: &str) -> Option<&[u8]>
        ensures { option_copied result ≡ map.get self.now.files.map name.now }
    {
        self.files.bytes(name)
    }
}

impl Files for MemoryFiles {
    ghost stored = { λ f. Some f.files.map };

    ghost faults = { λ f. f.plan.faults };

    ghost misses = { λ f. f.files.misses };

    fn read(&mut self, alloc: Global, name: &str, limit: u32) -> FileRead
        ensures listed { (result ≡ FileRead.Failed) ↔ IsTrue (fails_next self.old.plan) }
        ensures plan { self.new.plan ≡ after_call self.old.plan }
        ensures missed { self.new.files.misses ≡ misses_after self.old.files.misses result }
        ensures gives { Gives (Some self.old.files.map) name.now limit result }
        ensures within { IsWithin limit result }
        ensures same { Some self.new.files.map ≡ Some self.old.files.map }
        ensures faults { self.old.plan.faults ≤ self.new.plan.faults }
        ensures misses { self.old.files.misses ≤ self.new.files.misses }
        ensures failed { result ≡ FileRead.Failed → Rose self.old.plan.faults self.new.plan.faults }
        ensures missing { result ≡ FileRead.Missing → Rose self.old.files.misses self.new.files.misses }
    {
        if self.plan.fails_now() {
            return FileRead::Failed;
        }
        self.files.read(alloc, name, limit)
    }

    fn write(&mut self, name: &str, bytes: &[u8]) -> FileWrite
        ensures listed { (result ≡ FileWrite.Failed) ↔ IsTrue (fails_next self.old.plan) }
        ensures plan { self.new.plan ≡ after_call self.old.plan }
        ensures missed { self.new.files.misses ≡ self.old.files.misses }
        ensures kept { result ≢ FileWrite.Done → self.new.files ≡ self.old.files }
        ensures stores { Stores (Some self.old.files.map) (Some self.new.files.map) name.now bytes.now result }
        ensures faults { self.old.plan.faults ≤ self.new.plan.faults }
        ensures misses { self.old.files.misses ≤ self.new.files.misses }
        ensures failed { result ≡ FileWrite.Failed → Rose self.old.plan.faults self.new.plan.faults }
    {
        if self.plan.fails_now() {
            return FileWrite::Failed;
        }
        self.files.write(name, bytes)
    }
}
