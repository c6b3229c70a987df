//! What each call of a disk in memory does, where it succeeds and where it fails.
ghost use Rattle.std.specs.Prelude.{◌≡◌, ◌≤◌, ◌+◌, ◌^◌, length, OnErr, OnOk};
ghost use Rattle.disk_model.specs.Content.{bytes_at, written, resized, TornWrite, TornCut, Same};
ghost use Rattle.disk_model.specs.Images.{Only, Steps};
ghost use Rattle.disk_model.specs.Memory.{log_state};

use crate::log::{Call, Log};
use std::alloc::{AllocError, Global};

/// Reads from a place on. Past the end the bytes are 0.
pub(crate) fn read_into(bytes: &[u8], at: u64, into: &mut [u8])
    requires { at + length into.old ≤ 2 ^ 62 }
    ensures { into.new ≡ bytes_at bytes.now at (length into.old) }
{
    for (k, byte) in into.iter_mut().enumerate() {
        let place = at as usize + k;
        *byte = if place < bytes.len() { bytes[place] } else { 0 };
    }
}

/// Writes. Where memory runs out nothing changes.
pub(crate) fn write(alloc: Global, log: &mut Log, at: u64, bytes: &[u8]) -> Result<(), AllocError>
    ensures written { OnOk result ((log_state log.new).seen ≡ written at bytes.now (log_state log.old).seen) }
    ensures kept { OnErr result ((log_state log.new).seen ≡ (log_state log.old).seen) }
    ensures steps { Steps (TornWrite at (length bytes.now)) (log_state log.old) (log_state log.new) }
{
    let kept = Vec::from_slice(alloc, bytes)?;
    log.make(alloc, Call::Written(at, kept))
}

/// Keeps that a write failed, where there is memory for that. What a read gives stays.
pub(crate) fn fail_write(
    alloc: Global,
    log: &mut Log,
    at: u64,
    bytes: &[u8],
) -> Result<(), AllocError>
    ensures kept { (log_state log.new).seen ≡ (log_state log.old).seen }
    ensures steps { Steps (TornWrite at (length bytes.now)) (log_state log.old) (log_state log.new) }
{
    let kept = Vec::from_slice(alloc, bytes)?;
    log.make(alloc, Call::WriteFailed(at, kept))
}

/// Cuts or grows. Where memory runs out nothing changes.
pub(crate) fn resize(alloc: Global, log: &mut Log, length: u64) -> Result<(), AllocError>
    ensures resized { OnOk result ((log_state log.new).seen ≡ resized length (log_state log.old).seen) }
    ensures kept { OnErr result ((log_state log.new).seen ≡ (log_state log.old).seen) }
    ensures steps { Steps (TornCut length) (log_state log.old) (log_state log.new) }
{
    log.make(alloc, Call::Resized(length))
}

/// Keeps that a cut failed, where there is memory for that. What a read gives stays.
pub(crate) fn fail_cut(alloc: Global, log: &mut Log, length: u64) -> Result<(), AllocError>
    ensures kept { (log_state log.new).seen ≡ (log_state log.old).seen }
    ensures steps { Steps (TornCut length) (log_state log.old) (log_state log.new) }
{
    log.make(alloc, Call::CutFailed(length))
}

/// Syncs. Where memory runs out nothing changes.
pub(crate) fn sync(alloc: Global, log: &mut Log) -> Result<(), AllocError>
    ensures durable { OnOk result (Only (log_state log.new).seen (log_state log.new).may_leave) }
    ensures steps { Steps Same (log_state log.old) (log_state log.new) }
{
    log.make(alloc, Call::Synced)
}
