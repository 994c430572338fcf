ghost use Rattle.std.specs.Prelude.{◌≡◌, ◌↔◌, ◌<◌, ◌≤◌, length, Some, IfOk, IsTrue, IsOk, IsErr};
ghost use Rattle.std.specs.Io.KnownBytes.{ReadConsumes};
ghost use Rattle.el_outside.specs.Causes.{HasCause};
ghost use Rattle.el_outside.specs.Planned.{fresh, fails_next, after_call};
ghost use Rattle.el_outside.specs.Memory.{given};

use crate::fail_plan::FailPlan;
use crate::{Failed, Source};
use std::marker::Model;

/// A source that holds its bytes and never fails. Contracts see the bytes left and `most`.
#[derive(Drop)]
pub struct SureSource {
    bytes: Vec<u8>,
    at: usize,
    most: u32,
}

impl Model for SureSource {
    ghost use Rattle.std.specs.Prelude.{◌<◌, ◌≤◌, length, drop};
    ghost use Rattle.el_outside.specs.Memory.{SourceState};

    ghost Value = { SourceState };

    ghost view = { λ s. record { left = drop s.at s.bytes.items; most = s.most } };

    ghost invariant = { λ s. (s.at ≤ length s.bytes.items) × (0 < s.most) };
}

impl SureSource {
    /// One call gives at most `most` bytes. Takes no memory.
    pub fn new(bytes: Vec<u8>, most: u32) -> SureSource
        requires { 0 < most }
        ensures { result ≡ record { left = bytes.items; most = most } }
    {
        SureSource { bytes, at: 0, most }
    }
}

impl Source for SureSource {
    ghost left = { λ s. Some s.left };

    ghost faults = { λ _. 0 };

    fn take(&mut self, into: &mut [u8]) -> Result<usize, Failed>
        requires { 0 < length into.old }
        ensures never_fails { IsOk result }
        ensures count { IfOk result (λ n. n ≡ given self.old (length into.old)) }
        ensures most { self.new.most ≡ self.old.most }
        ensures bound { IfOk result (λ n. n ≤ length into.new) }
        ensures bytes { ReadConsumes (Some self.old.left) (Some self.new.left) result into.new }
    {
        let rest = &self.bytes[self.at..];
        let n = rest.len().min(into.len()).min(self.most as usize);
        into[..n].copy_from_slice(&rest[..n]);
        self.at += n;
        Ok(n)
    }
}

/// A source that holds its bytes, and whose calls of the numbers in `fails` fail.
#[derive(Drop)]
pub struct MemorySource {
    source: SureSource,
    plan: FailPlan,
}

impl Model for MemorySource {
    ghost use Rattle.el_outside.specs.Memory.{FailingSource};

    ghost Value = { FailingSource };

    ghost view = { λ s. record { source = s.source; plan = s.plan } };
}

impl MemorySource {
    /// One call gives at most `most` bytes. Calls are counted from 1. Takes no memory.
    pub fn new(bytes: Vec<u8>, most: u32, fails: Vec<u64>) -> MemorySource
        requires { 0 < most }
        ensures source { result.source ≡ record { left = bytes.items; most = most } }
        ensures plan { result.plan ≡ fresh fails.items }
    {
        MemorySource {
            source: SureSource::new(bytes, most),
            plan: FailPlan::new(fails),
        }
    }
}

impl Source for MemorySource {
    ghost left = { λ s. Some s.source.left };

    ghost faults = { λ s. s.plan.faults };

    fn take(&mut self, into: &mut [u8]) -> Result<usize, Failed>
        requires { 0 < length into.old }
        ensures listed { IsErr result ↔ IsTrue (fails_next self.old.plan) }
        ensures plan { self.new.plan ≡ after_call self.old.plan }
        ensures count { IfOk result (λ n. n ≡ given self.old.source (length into.old)) }
        ensures most { self.new.source.most ≡ self.old.source.most }
        ensures bound { IfOk result (λ n. n ≤ length into.new) }
        ensures bytes { ReadConsumes (Some self.old.source.left) (Some self.new.source.left) result into.new }
        ensures cause { HasCause self.old.plan.faults self.new.plan.faults result }
    {
        if self.plan.fails_now() {
            return Err(Failed);
        }
        self.source.take(into)
    }
}
