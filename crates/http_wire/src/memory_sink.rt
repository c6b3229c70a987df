//! A sink in memory, some calls of which may be set to fail.
ghost use Rattle.std.specs.Io.KnownBytes.{WriteAppends};
ghost use Rattle.std.specs.Prelude.{◌≡◌, ◌≤◌, ◌<◌, Some, [], length, IfOk};
ghost use Rattle.base.specs.Causes.{HasCause};
ghost use Rattle.http_wire.specs.Memory.{TakesIn};

use crate::streams::{ByteSink, Failed};
use std::alloc::Global;
use std::marker::Model;

/// Takes bytes into memory. The calls in `fail`, counted from 1, answer `Failed`, as does one for which memory runs out.
#[derive(Drop)]
pub struct MemorySink {
    taken: Vec<u8>,
    fail: Vec<u64>,
    calls: u64,
    faults: u64,
}

impl Model for MemorySink {
    ghost use Rattle.http_wire.specs.Memory.{Intake};

    ghost Value = { Intake };

    ghost view = { λ s. record { taken = s.taken.items; fail = s.fail.items; calls = s.calls; faults = s.faults } };
}

impl MemorySink {
    /// A sink that has taken nothing.
    pub fn new(alloc: Global, fail: Vec<u64>) -> MemorySink
        ensures { result ≡ record { taken = []; fail = fail.items; calls = 0; faults = 0 } }
    {
        MemorySink {
            taken: Vec::new(alloc),
            fail,
            calls: 0,
            faults: 0,
        }
    }

    /// The bytes that were taken so far.
    pub fn taken(&self) -> &[u8]
        ensures { result.now ≡ self.now.taken }
    {
        self.taken.as_slice()
    }
}

impl ByteSink for MemorySink {
    ghost taken = { λ s. Some s.taken };

    ghost faults = { λ s. s.faults };

    fn put(&mut self, bytes: &[u8]) -> Result<usize, Failed>
        requires { 0 < length bytes.now }
        ensures bound { IfOk result (λ n. (1 ≤ n) × (n ≤ length bytes.now)) }
        ensures bytes { WriteAppends (Some self.old.taken) (Some self.new.taken) result bytes.now }
        ensures cause { HasCause self.old.faults self.new.faults result }
        ensures exact { TakesIn self.old self.new bytes.now result }
    {
        self.calls = self.calls.saturating_add(1);
        if self.fail.as_slice().contains(&self.calls)
            || self.taken.extend_from_slice(bytes).is_err()
        {
            self.faults = base::one_more(self.faults);
            return Err(Failed);
        }
        Ok(bytes.len())
    }
}
