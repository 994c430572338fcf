ghost use Rattle.std.specs.Prelude.{◌<◌, ◌≤◌, List, ℕ, length, IfOk, IsErrOf};
ghost use Rattle.std.specs.declared.option.Option.{Option};
ghost use Rattle.std.specs.Io.KnownBytes.{WriteAppends};
ghost use Rattle.el_outside.specs.Causes.{Rose};

/// Why no byte was put.
#[derive(Clone, Copy, Debug, PartialEq, Eq)]
pub enum PutError {
    /// The call failed, which the sink has counted.
    Failed,
    NoMemory,
}

/// Where bytes go to.
pub trait Sink {
    /// The bytes that were put, where the sink tells them.
    ghost written: { Self → Option (List ℕ) };

    /// How often it has failed.
    ghost faults: { Self → ℕ };

    /// Appends the first of these bytes, at least one, and answers how many. After an error nothing
    /// is appended.
    fn put(&mut self, bytes: &[u8]) -> Result<usize, PutError>
        requires { 0 < length bytes.now }
        ensures some { IfOk result (λ n. 0 < n) }
        ensures bound { IfOk result (λ n. n ≤ length bytes.now) }
        ensures bytes { WriteAppends (written self.old) (written self.new) result bytes.now }
        ensures later { faults self.old ≤ faults self.new }
        ensures failed { IsErrOf result PutError.Failed → Rose (faults self.old) (faults self.new) };
}
