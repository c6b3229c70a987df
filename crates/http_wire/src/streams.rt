//! The traits of what bytes come from and of what they go to.
ghost use Rattle.std.specs.Io.KnownBytes.{ReadConsumes, WriteAppends};
ghost use Rattle.std.specs.Prelude.{◌≡◌, ℕ, ◌<◌, ◌≤◌, List, length, IfOk};
ghost use Rattle.std.specs.declared.option.Option.{Option};
ghost use Rattle.base.specs.Causes.{HasCause};
ghost use Rattle.http_wire.specs.Side.{Side, no_side};

/// A read or a write that failed.
#[derive(Clone, Copy, Debug, PartialEq, Eq)]
pub struct Failed;

/// Where bytes come from.
pub trait ByteSource: Drop {
    /// The bytes that are left, where they are modelled.
    ghost left: { Self → Option (List ℕ) };

    /// How often a take has failed.
    ghost faults: { Self → ℕ };

    /// What a take leaves as it is: the other side of a link.
    ghost apart: { Self → Side } = { λ _. no_side };

    /// Takes the next bytes into the front of `into`, and answers how many: none only at the end, and then again none.
    /// `Failed` leaves the bytes as they were.
    fn take(&mut self, into: &mut [u8]) -> Result<usize, Failed>
        requires { 0 < length into.old }
        ensures bound { IfOk result (λ n. n ≤ length into.new) }
        ensures bytes { ReadConsumes (left self.old) (left self.new) result into.new }
        ensures cause { HasCause (faults self.old) (faults self.new) result }
        ensures apart { apart self.new ≡ apart self.old };
}

/// Where bytes go.
pub trait ByteSink: Drop {
    /// The bytes that were taken so far, where they are modelled.
    ghost taken: { Self → Option (List ℕ) };

    /// How often a put has failed.
    ghost faults: { Self → ℕ };

    /// What a put leaves as it is: the other side of a link.
    ghost apart: { Self → Side } = { λ _. no_side };

    /// Takes the first of the bytes, and answers how many: one at least. `Failed` takes none.
    fn put(&mut self, bytes: &[u8]) -> Result<usize, Failed>
        requires { 0 < length bytes.now }
        ensures bound { IfOk result (λ n. (1 ≤ n) × (n ≤ length bytes.now)) }
        ensures bytes { WriteAppends (taken self.old) (taken self.new) result bytes.now }
        ensures cause { HasCause (faults self.old) (faults self.new) result }
        ensures apart { apart self.new ≡ apart self.old };
}

impl<S: ByteSource> ByteSource for &mut S {
    ghost left = { λ s. S.left s.now };

    ghost faults = { λ s. S.faults s.now };

    ghost apart = { λ s. S.apart s.now };

    fn take(&mut self, into: &mut [u8]) -> Result<usize, Failed> {
        (**self).take(into)
    }
}

impl<S: ByteSink> ByteSink for &mut S {
    ghost taken = { λ s. S.taken s.now };

    ghost faults = { λ s. S.faults s.now };

    ghost apart = { λ s. S.apart s.now };

    fn put(&mut self, bytes: &[u8]) -> Result<usize, Failed> {
        (**self).put(bytes)
    }
}
