ghost use Rattle.std.specs.Prelude.{◌≡◌, ◌<◌, ◌≤◌, length, IfOk, IfErr, IsErrOf};
ghost use Rattle.std.specs.Io.KnownBytes.{WriteAppends};
ghost use Rattle.el_outside.specs.Causes.{Rose};

use crate::{Failed, PutError, Sink, Source};
use std::io::{Read, Write};

/// A reader of std, as standard input. It counts each error.
#[derive(Drop)]
pub struct RealSource<R> {
    inner: R,
    faults: u64,
}

impl<R: Read> RealSource<R> {
    /// It tells of its bytes what the reader tells.
    pub fn new(inner: R) -> RealSource<R>
        ensures left { ⟦<RealSource<R> as Source>⟧.left result ≡ R.remaining inner }
        ensures faults { ⟦<RealSource<R> as Source>⟧.faults result ≡ 0 }
    {
        RealSource { inner, faults: 0 }
    }
}

impl<R: Read> Source for RealSource<R> {
    ghost left = { λ s. R.remaining s.inner };

    ghost faults = { λ s. s.faults };

    fn take(&mut self, into: &mut [u8]) -> Result<usize, Failed> {
        match self.inner.read(into) {
            Ok(n) => Ok(n),
            Err(_) => {
                self.faults = self.faults.saturating_add(1);
                Err(Failed)
            }
        }
    }
}

/// A writer of std, as standard output. It counts each error, and a write of no byte as one.
#[derive(Drop)]
pub struct RealSink<W> {
    inner: W,
    faults: u64,
}

impl<W: Write> RealSink<W> {
    /// It tells of its bytes what the writer tells.
    pub fn new(inner: W) -> RealSink<W>
        ensures written { ⟦<RealSink<W> as Sink>⟧.written result ≡ W.contents inner }
        ensures faults { ⟦<RealSink<W> as Sink>⟧.faults result ≡ 0 }
    {
        RealSink { inner, faults: 0 }
    }
}

impl<W: Write> Sink for RealSink<W> {
    ghost written = { λ s. W.contents s.inner };

    ghost faults = { λ s. s.faults };

    fn put(&mut self, bytes: &[u8]) -> Result<usize, PutError>
        requires { 0 < length bytes.now }
        ensures err { IfErr result (λ e. e ≡ PutError.Failed) }
        ensures some { IfOk result (λ n. 0 < n) }
        ensures bound { IfOk result (λ n. n ≤ length bytes.now) }
        ensures bytes { WriteAppends (⟦<RealSink<W> as Sink>⟧.written self.old) (⟦<RealSink<W> as Sink>⟧.written self.new) result bytes.now }
        ensures later { ⟦<RealSink<W> as Sink>⟧.faults self.old ≤ ⟦<RealSink<W> as Sink>⟧.faults self.new }
        ensures failed { IsErrOf result PutError.Failed → Rose (⟦<RealSink<W> as Sink>⟧.faults self.old) (⟦<RealSink<W> as Sink>⟧.faults self.new) }
    {
        match self.inner.write(bytes) {
            Ok(n) if n > 0 => Ok(n),
            _ => {
                self.faults = self.faults.saturating_add(1);
                Err(PutError::Failed)
            }
        }
    }
}
