//! Sources and sinks in memory: which bytes come and go, and which of their calls fail.
ghost use Rattle.std.specs.Prelude.{◌≡◌, ◌<◌, ◌↔◌, [], ℕ, Some, Contains, IfOk, IsTrue, OnErr, IsErr, length, take};
ghost use Rattle.std.specs.Io.{ReadsAtMost, WritesAtMost};
ghost use Rattle.std.specs.Io.KnownBytes.{ReadConsumes, WriteAppends};
ghost use Rattle.score_base.specs.Faults.{HasCause};
ghost use Rattle.score_io.specs.InMemory.{next_count, CountsFaults};

use crate::traits::{Sink, Source};
use score_base::Failed;
use std::alloc::Global;
use std::io::{Cursor, Read};
use std::marker::Model;

/// A source in memory, which tells its bytes. Its calls are numbered from 1 on, and those whose
/// numbers were given to [`MemSource::new`] fail; no other call does.
#[derive(Drop)]
pub struct MemSource {
    inner: Cursor<Vec<u8>>,
    calls: u64,
    fails: Vec<u64>,
    faults: u64,
}

impl Model for MemSource {
    ghost use Rattle.std.specs.Prelude.{drop};
    ghost use Rattle.std.specs.Io.Cursor.{cursor_inner, cursor_position};
    ghost use Rattle.score_io.specs.InMemory.{SourceState};

    ghost Value = { SourceState };

    ghost view = { λ s. record { left = drop (cursor_position s.inner) (cursor_inner s.inner).items; calls = s.calls; fails = s.fails.items; faults = s.faults } };
}

impl MemSource {
    /// A source of these bytes, of count 0, whose calls of these numbers fail.
    pub fn new(bytes: Vec<u8>, fails: Vec<u64>) -> MemSource
        ensures left { result.left ≡ bytes.items }
        ensures calls { result.calls ≡ 0 }
        ensures fails { result.fails ≡ fails.items }
        ensures faults { result.faults ≡ 0 }
    {
        MemSource {
            inner: Cursor::new(bytes),
            calls: 0,
            fails,
            faults: 0,
        }
    }
}

impl Source for MemSource {
    ghost left = { λ s. Some s.left };

    ghost faults = { λ s. s.faults };

    fn read(&mut self, buf: &mut [u8]) -> Result<usize, Failed>
        ensures bound { ReadsAtMost result buf.new }
        ensures bytes { ReadConsumes (Some self.old.left) (Some self.new.left) result buf.new }
        ensures calls { self.new.calls ≡ next_count self.old.calls }
        ensures fails { self.new.fails ≡ self.old.fails }
        ensures failed { IsErr result ↔ Contains self.old.fails self.new.calls }
        ensures faults { CountsFaults self.old.faults self.new.faults result }
        ensures cause { HasCause self.old.faults self.new.faults result }
    {
        self.calls = self.calls.saturating_add(1);
        if self.fails.contains(&self.calls) {
            self.faults = self.faults.saturating_add(1);
            return Err(Failed);
        }
        self.inner.read(buf).map_err(|_| Failed)
    }
}

/// A sink in memory, which tells its bytes. Its calls are numbered from 1 on, and those whose numbers
/// were given to [`MemSink::new`] fail; another call fails only where no room is found for its piece.
#[derive(Drop)]
pub struct MemSink {
    bytes: Vec<u8>,
    calls: u64,
    fails: Vec<u64>,
    faults: u64,
}

impl Model for MemSink {
    ghost use Rattle.score_io.specs.InMemory.{SinkState};

    ghost Value = { SinkState };

    ghost view = { λ s. record { held = s.bytes.items; calls = s.calls; fails = s.fails.items; faults = s.faults } };
}

impl MemSink {
    /// A sink that holds no byte, of count 0, whose calls of these numbers fail.
    pub fn new(alloc: Global, fails: Vec<u64>) -> MemSink
        ensures held { result.held ≡ [] }
        ensures calls { result.calls ≡ 0 }
        ensures fails { result.fails ≡ fails.items }
        ensures faults { result.faults ≡ 0 }
    {
        MemSink {
            bytes: Vec::new(alloc),
            calls: 0,
            fails,
            faults: 0,
        }
    }

    /// The bytes held.
    pub fn bytes(&self) -> &[u8]
        ensures { result.now ≡ self.now.held }
    {
        self.bytes.as_slice()
    }
}

impl Sink for MemSink {
    ghost held = { λ s. Some s.held };

    ghost faults = { λ s. s.faults };

    /// Appends all of the bytes. Where no room is found for them it appends nothing, raises its count
    /// and answers [`Failed`].
    fn write(&mut self, bytes: &[u8]) -> Result<usize, Failed>
        ensures all { IfOk result (λ n. n ≡ length bytes.now) }
        ensures bytes { WriteAppends (Some self.old.held) (Some self.new.held) result bytes.now }
        ensures calls { self.new.calls ≡ next_count self.old.calls }
        ensures fails { self.new.fails ≡ self.old.fails }
        ensures failed { Contains self.old.fails self.new.calls → IsErr result }
        ensures faults { CountsFaults self.old.faults self.new.faults result }
        ensures cause { HasCause self.old.faults self.new.faults result }
    {
        self.calls = self.calls.saturating_add(1);
        if self.fails.contains(&self.calls) || self.bytes.extend_from_slice(bytes).is_err() {
            self.faults = self.faults.saturating_add(1);
            return Err(Failed);
        }
        Ok(bytes.len())
    }
}
