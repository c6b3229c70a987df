//! How a log is begun, and how a call is done to its bytes and kept.
ghost use Rattle.std.specs.Prelude.{◌≡◌, ◌<◌, ◌∷◌, ◌++◌, [], OnOk, OnErr, IsSome, vec_len, vec_capacity};
ghost use Rattle.disk_model.specs.Replay.{first_of, seen_after_call};

use crate::bytes::{overwrite, resize};
use crate::log::{Call, Log};
use std::alloc::{AllocError, Global};

/// Does to the bytes what a call did. Where memory runs out nothing changes.
pub(crate) fn redo(bytes: &mut Vec<u8>, call: &Call) -> Result<(), AllocError>
    ensures ok { OnOk result (bytes.new.items ≡ seen_after_call call.now bytes.old.items) }
    ensures err { OnErr result (bytes.new.items ≡ bytes.old.items) }
{
    match call {
        Call::Written(at, with) => overwrite(bytes, *at, with),
        Call::Resized(length) => resize(bytes, *length),
        Call::WriteFailed(_, _) | Call::CutFailed(_) | Call::Synced => Ok(()),
    }
}

/// Adds to a vector that has room for it.
fn push_ready(calls: &mut Vec<Call>, call: Call)
    requires { vec_len calls.old < vec_capacity calls.old }
    ensures { calls.new.items ≡ calls.old.items ++ call ∷ [] }
{
    match calls.push(call) {
        Ok(()) => {}
        Err(_) => unreachable!(),
    }
}

impl Log {
    /// Bytes to which nothing was done yet.
    pub(crate) fn new(alloc: Global, bytes: Vec<u8>) -> Log
        ensures first { first_of result.first result.bytes.items ≡ bytes.items }
        ensures calls { result.calls.items ≡ [] }
    {
        Log {
            first: None,
            calls: Vec::new(alloc),
            bytes,
        }
    }

    /// Keeps a copy of what it was at first, before anything changes.
    fn remember(&mut self, alloc: Global) -> Result<(), AllocError>
        ensures first { first_of self.new.first self.new.bytes.items ≡ first_of self.old.first self.old.bytes.items }
        ensures calls { self.new.calls.items ≡ self.old.calls.items }
        ensures some { OnOk result (IsSome self.new.first) }
    {
        if self.first.is_none() {
            self.first = Some(self.bytes.to_vec(alloc)?);
        }
        Ok(())
    }

    /// Does what a call did, and keeps the call. Where memory runs out nothing changes.
    pub(crate) fn make(&mut self, alloc: Global, call: Call) -> Result<(), AllocError>
        ensures first { first_of self.new.first self.new.bytes.items ≡ first_of self.old.first self.old.bytes.items }
        ensures ok { OnOk result (self.new.calls.items ≡ self.old.calls.items ++ call ∷ []) }
        ensures err { OnErr result (self.new.calls.items ≡ self.old.calls.items) }
    {
        self.remember(alloc)?;
        self.calls.reserve(1)?;
        redo(&mut self.bytes, &call)?;
        push_ready(&mut self.calls, call);
        Ok(())
    }
}
