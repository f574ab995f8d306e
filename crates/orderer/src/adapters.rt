ghost use Rattle.std.specs.Prelude.{◌≡◌, None};

use ord_types::{Failed, Sink, Source};
use std::io::{Read, Write};

/// A source over a reader of std.
#[derive(Drop)]
pub struct Reading<R> {
    inner: R,
    faults: u64,
}

impl<R> Reading<R> {
    /// A source that has not failed yet.
    pub fn new(inner: R) -> Reading<R>
        ensures inner { result.inner ≡ inner }
        ensures faults { result.faults ≡ 0 }
    {
        Reading { inner, faults: 0 }
    }
}

impl<R: Read> Source for Reading<R> {
    ghost left = { λ source. R.remaining source.inner };

    ghost faults = { λ source. source.faults };

    fn read(&mut self, into: &mut [u8]) -> Result<usize, Failed> {
        match self.inner.read(into) {
            Ok(count) => Ok(count),
            Err(_) => {
                self.faults = self.faults.saturating_add(1);
                Err(Failed)
            }
        }
    }
}

/// A sink over a writer of std.
#[derive(Drop)]
pub struct Writing<W> {
    inner: W,
    faults: u64,
}

impl<W> Writing<W> {
    /// A sink that has not failed yet.
    pub fn new(inner: W) -> Writing<W>
        ensures inner { result.inner ≡ inner }
        ensures faults { result.faults ≡ 0 }
    {
        Writing { inner, faults: 0 }
    }
}

impl<W: Write> Sink for Writing<W> {
    ghost content = { λ sink. W.contents sink.inner };

    ghost faults = { λ sink. sink.faults };

    fn write(&mut self, bytes: &[u8]) -> Result<usize, Failed> {
        match self.inner.write(bytes) {
            Ok(count) if count > 0 || bytes.is_empty() => Ok(count),
            _ => {
                self.faults = self.faults.saturating_add(1);
                Err(Failed)
            }
        }
    }
}

/// A source that can't be opened: each call fails.
#[derive(Drop)]
pub struct NoSource {
    faults: u64,
}

impl NoSource {
    /// A source of which no call was made.
    pub fn new() -> NoSource
        ensures { result.faults ≡ 0 }
    {
        NoSource { faults: 0 }
    }
}

impl Source for NoSource {
    ghost left = { λ _. None };

    ghost faults = { λ source. source.faults };

    fn read(&mut self, _into: &mut [u8]) -> Result<usize, Failed> {
        self.faults = self.faults.saturating_add(1);
        Err(Failed)
    }
}
