ghost use Rattle.std.specs.Prelude.{◌≡◌, ◌↔◌, ◌<◌, ◌≤◌, [], length, min, Some, IfOk, IfErr, IsErrOf, IsTrue};
ghost use Rattle.std.specs.Io.KnownBytes.{WriteAppends};
ghost use Rattle.el_outside.specs.Causes.{Rose};
ghost use Rattle.el_outside.specs.Planned.{fresh, fails_next, after_call};

use crate::fail_plan::FailPlan;
use crate::{NoMemory, PutError, Sink};
use std::alloc::Global;
use std::marker::Model;

/// A sink that holds what was put and never fails. Contracts see these bytes and `most`.
#[derive(Drop)]
pub struct SureSink {
    bytes: Vec<u8>,
    most: u32,
}

impl Model for SureSink {
    ghost use Rattle.std.specs.Prelude.{◌<◌};
    ghost use Rattle.el_outside.specs.Memory.{SinkState};

    ghost Value = { SinkState };

    ghost view = { λ s. record { bytes = s.bytes.items; most = s.most } };

    ghost invariant = { λ s. 0 < s.most };
}

impl SureSink {
    /// An empty sink. One call takes at most `most` bytes.
    pub fn new(alloc: Global, most: u32) -> Result<SureSink, NoMemory>
        requires { 0 < most }
        ensures { IfOk result (λ s. s ≡ record { bytes = []; most = most }) }
    {
        Ok(SureSink {
            bytes: Vec::new(alloc),
            most,
        })
    }

    /// The bytes that were put. Takes no memory.
    pub fn bytes(&self) -> &[u8]
        ensures { result.now ≡ self.now.bytes }
    {
        &self.bytes
    }
}

impl Sink for SureSink {
    ghost written = { λ s. Some s.bytes };

    ghost faults = { λ _. 0 };

    fn put(&mut self, bytes: &[u8]) -> Result<usize, PutError>
        requires { 0 < length bytes.now }
        ensures never_fails { IfErr result (λ e. e ≡ PutError.NoMemory) }
        ensures count { IfOk result (λ n. n ≡ min (length bytes.now) self.old.most) }
        ensures most { self.new.most ≡ self.old.most }
        ensures some { IfOk result (λ n. 0 < n) }
        ensures bound { IfOk result (λ n. n ≤ length bytes.now) }
        ensures bytes { WriteAppends (Some self.old.bytes) (Some self.new.bytes) result bytes.now }
    {
        let n = bytes.len().min(self.most as usize);
        match self.bytes.extend_from_slice(&bytes[..n]) {
            Ok(()) => Ok(n),
            Err(_) => Err(PutError::NoMemory),
        }
    }
}

/// A sink that holds what was put, and whose calls of the numbers in `fails` fail.
#[derive(Drop)]
pub struct MemorySink {
    sink: SureSink,
    plan: FailPlan,
}

impl Model for MemorySink {
    ghost use Rattle.el_outside.specs.Memory.{FailingSink};

    ghost Value = { FailingSink };

    ghost view = { λ s. record { sink = s.sink; plan = s.plan } };
}

impl MemorySink {
    /// An empty sink. One call takes at most `most` bytes. Calls are counted from 1.
    pub fn new(alloc: Global, most: u32, fails: Vec<u64>) -> Result<MemorySink, NoMemory>
        requires { 0 < most }
        ensures sink { IfOk result (λ s. s.sink ≡ record { bytes = []; most = most }) }
        ensures plan { IfOk result (λ s. s.plan ≡ fresh fails.items) }
    {
        Ok(MemorySink {
            sink: SureSink::new(alloc, most)?,
            plan: FailPlan::new(fails),
        })
    }

    /// The bytes that were put. Takes no memory.
    pub fn bytes(&self) -> &[u8]
        ensures { result.now ≡ self.now.sink.bytes }
    {
        self.sink.bytes()
    }
}

impl Sink for MemorySink {
    ghost written = { λ s. Some s.sink.bytes };

    ghost faults = { λ s. s.plan.faults };

    fn put(&mut self, bytes: &[u8]) -> Result<usize, PutError>
        requires { 0 < length bytes.now }
        ensures listed { IsErrOf result PutError.Failed ↔ IsTrue (fails_next self.old.plan) }
        ensures plan { self.new.plan ≡ after_call self.old.plan }
        ensures count { IfOk result (λ n. n ≡ min (length bytes.now) self.old.sink.most) }
        ensures most { self.new.sink.most ≡ self.old.sink.most }
        ensures some { IfOk result (λ n. 0 < n) }
        ensures bound { IfOk result (λ n. n ≤ length bytes.now) }
        ensures bytes { WriteAppends (Some self.old.sink.bytes) (Some self.new.sink.bytes) result bytes.now }
        ensures later { self.old.plan.faults ≤ self.new.plan.faults }
        ensures failed { IsErrOf result PutError.Failed → Rose self.old.plan.faults self.new.plan.faults }
    {
        if self.plan.fails_now() {
            return Err(PutError::Failed);
        }
        self.sink.put(bytes)
    }
}
