ghost use Rattle.std.specs.Prelude.{◌≡◌, ◌≤◌, [], drop, length, Some, IfOk, OnOk};

use crate::lists::{Bytes, List, NoMemory};
use crate::outside::{Failed, Sink, Source};
use std::alloc::Global;

/// A source over bytes in memory.
#[derive(Drop)]
pub struct MemSource {
    bytes: Bytes,
    at: usize,
    fails: List<u64>,
    calls: u64,
    faults: u64,
    ghost in_range: { at ≤ length bytes },
}

impl MemSource {
    /// A source of these bytes. The calls in `fails`, counted from 1, fail.
    pub fn new(bytes: Bytes, fails: List<u64>) -> MemSource
        ensures left { ⟦<MemSource as Source>⟧.left result ≡ Some bytes }
        ensures faults { ⟦<MemSource as Source>⟧.faults result ≡ 0 }
    {
        MemSource {
            bytes,
            at: 0,
            fails,
            calls: 0,
            faults: 0,
        }
    }
}

impl Source for MemSource {
    ghost left = { λ source. Some (drop source.at source.bytes) };

    ghost faults = { λ source. source.faults };

    fn read(&mut self, into: &mut [u8]) -> Result<usize, Failed> {
        self.calls = self.calls.saturating_add(1);
        if self.fails.as_slice().contains(&self.calls) {
            self.faults = self.faults.saturating_add(1);
            return Err(Failed);
        }
        let count = into.len().min(self.bytes.len() - self.at);
        let end = self.at + count;
        into[..count].copy_from_slice(&self.bytes.as_slice()[self.at..end]);
        self.at = end;
        Ok(count)
    }
}

/// A sink in memory.
#[derive(Drop)]
pub struct MemSink {
    bytes: Bytes,
    fails: List<u64>,
    calls: u64,
    faults: u64,
}

impl MemSink {
    /// A sink that has taken nothing. The calls in `fails`, counted from 1, fail; so does a call that
    /// finds no memory.
    pub fn new(alloc: Global, fails: List<u64>) -> Result<MemSink, NoMemory>
        ensures content { IfOk result (λ sink. ⟦<MemSink as Sink>⟧.content sink ≡ Some []) }
        ensures faults { IfOk result (λ sink. ⟦<MemSink as Sink>⟧.faults sink ≡ 0) }
    {
        Ok(MemSink {
            bytes: Bytes::new(alloc),
            fails,
            calls: 0,
            faults: 0,
        })
    }

    /// The bytes taken so far.
    pub fn bytes(&self) -> &[u8]
        ensures { ⟦<MemSink as Sink>⟧.content self.now ≡ Some result.now }
    {
        self.bytes.as_slice()
    }
}

impl Sink for MemSink {
    ghost content = { λ sink. Some sink.bytes };

    ghost faults = { λ sink. sink.faults };

    fn write(&mut self, bytes: &[u8]) -> Result<usize, Failed> {
        self.calls = self.calls.saturating_add(1);
        if self.fails.as_slice().contains(&self.calls)
            || self.bytes.extend_from_slice(bytes).is_err()
        {
            self.faults = self.faults.saturating_add(1);
            return Err(Failed);
        }
        Ok(bytes.len())
    }
}
