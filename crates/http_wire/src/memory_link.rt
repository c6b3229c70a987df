//! A connection in memory, made of a source and a sink.
ghost use Rattle.std.specs.Io.KnownBytes.{ReadConsumes, WriteAppends};
ghost use Rattle.std.specs.Prelude.{◌≡◌, ◌≤◌, ◌<◌, Some, length, IfOk, refl};
ghost use Rattle.base.specs.Causes.{HasCause};
ghost use Rattle.http_wire.specs.Memory.{Supplies, TakesIn};
ghost use Rattle.http_wire.specs.Side.{side};

use crate::links::Link;
use crate::memory_sink::MemorySink;
use crate::memory_source::MemorySource;
use crate::streams::{ByteSink, ByteSource, Failed};

/// A connection in memory: what is left to take, and what was put.
#[derive(Drop)]
pub struct MemoryLink {
    pub source: MemorySource,
    pub sink: MemorySink,
}

impl MemoryLink {
    /// A link of these two sides.
    pub fn new(source: MemorySource, sink: MemorySink) -> MemoryLink
        ensures { result ≡ record { source = source; sink = sink } }
    {
        MemoryLink { source, sink }
    }

    /// The bytes that were put so far.
    pub fn taken(&self) -> &[u8]
        ensures { result.now ≡ self.now.sink.taken }
    {
        self.sink.taken()
    }
}

impl ByteSource for MemoryLink {
    ghost left = { λ l. Some l.source.left };

    ghost faults = { λ l. l.source.faults };

    ghost apart = { λ l. side (Some l.sink.taken) l.sink.faults };

    fn take(&mut self, into: &mut [u8]) -> Result<usize, Failed>
        requires { 0 < length into.old }
        ensures bound { IfOk result (λ n. n ≤ length into.new) }
        ensures bytes { ReadConsumes (Some self.old.source.left) (Some self.new.source.left) result into.new }
        ensures cause { HasCause self.old.source.faults self.new.source.faults result }
        ensures apart { self.new.sink ≡ self.old.sink }
        ensures exact { Supplies self.old.source self.new.source (length into.old) result }
    {
        self.source.take(into)
    }
}

impl ByteSink for MemoryLink {
    ghost taken = { λ l. Some l.sink.taken };

    ghost faults = { λ l. l.sink.faults };

    ghost apart = { λ l. side (Some l.source.left) l.source.faults };

    fn put(&mut self, bytes: &[u8]) -> Result<usize, Failed>
        requires { 0 < length bytes.now }
        ensures bound { IfOk result (λ n. (1 ≤ n) × (n ≤ length bytes.now)) }
        ensures bytes { WriteAppends (Some self.old.sink.taken) (Some self.new.sink.taken) result bytes.now }
        ensures cause { HasCause self.old.sink.faults self.new.sink.faults result }
        ensures apart { self.new.source ≡ self.old.source }
        ensures exact { TakesIn self.old.sink self.new.sink bytes.now result }
    {
        self.sink.put(bytes)
    }
}

impl Link for MemoryLink {
    ghost take_keeps = { λ link. refl };

    ghost put_keeps = { λ link. refl };
}
