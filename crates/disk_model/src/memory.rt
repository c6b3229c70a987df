//! A disk in memory, its calls, and its crash.
ghost use Rattle.std.specs.Prelude.{◌≡◌, ◌+◌, ◌≤◌, ◌^◌, [], length, true, is_ok, OnOk, OnErr, IfOk};
ghost use Rattle.base.specs.Causes.{Rose, HasCause, risen};
ghost use Rattle.disk_model.specs.Content.{bytes_at, written, resized, Same, TornCut, TornWrite};
ghost use Rattle.disk_model.specs.Crash.{write_left, cut_left, call_left, crashed};
ghost use Rattle.disk_model.specs.Images.{Only, Steps};
ghost use Rattle.disk_model.specs.Lawful.{lawful};
ghost use Rattle.disk_model.specs.Memory.{GoesBy, GoesWithMemory, IsUntouched, called, calls_of, is_failing, memory_faults, memory_state, new_script, script_of, stopped, crash_by};
ghost use Rattle.disk_model.specs.Replay.{first_of};

use crate::attempt::{fail_cut, fail_write, read_into, resize, sync, write};
use crate::blob_part::BlobPart;
use crate::bytes;
use crate::disk::{Disk, Failed};
use crate::log::{Call, Log};
use crate::make::redo;
use crate::pick::Pick;
use base::one_more;
use std::alloc::{AllocError, Global};

/// A disk in memory. It keeps all that was done to it: what a crash at any moment so far might have left is modelled,
/// and `crash` leaves it.
///
/// Where memory runs out a call fails. A call that fails changes nothing that a read gives, and a crash may leave what it
/// was to do.
#[derive(Drop)]
pub struct MemoryDisk {
    pub(crate) alloc: Global,
    pub(crate) log: Log,
    /// The calls that fail, counted from 1.
    pub(crate) fail: Vec<u64>,
    /// How many calls there were.
    pub(crate) made: u64,
    /// Each call after so many fails.
    pub(crate) stop_at: u64,
    pub(crate) faults: u64,
    /// How many calls failed because memory ran out.
    pub(crate) shortages: u64,
}

impl MemoryDisk {
    /// A disk with these bytes, on which nothing is pending. The calls of the list fail, counted from 1.
    pub fn new(alloc: Global, bytes: Vec<u8>, fail: Vec<u64>) -> MemoryDisk
        ensures bytes { (memory_state result).seen ≡ bytes.items }
        ensures clean { Only bytes.items (memory_state result).may_leave }
        ensures faults { memory_faults result ≡ 0 }
        ensures script { script_of result ≡ new_script fail.items }
        ensures calls { calls_of result ≡ [] }
    {
        MemoryDisk {
            alloc,
            log: Log::new(alloc, bytes),
            fail,
            made: 0,
            stop_at: u64::MAX,
            faults: 0,
            shortages: 0,
        }
    }

    /// Each call after that many more fails, in place of an earlier stop. The list of calls that fail stays.
    pub fn stop_after(&mut self, calls: u64)
        ensures untouched { IsUntouched self.old self.new }
        ensures script { script_of self.new ≡ stopped calls (script_of self.old) }
    {
        self.stop_at = self.made.saturating_add(calls);
    }

    /// What a read gives, from the first byte to the end.
    pub fn bytes(&self) -> &[u8]
        ensures { result.now ≡ (memory_state self.now).seen }
    {
        &self.log.bytes
    }

    /// How many of its calls failed because memory ran out.
    pub fn shortages(&self) -> u64
        ensures { result ≡ (script_of self.now).shortages }
    {
        self.shortages
    }

    /// Counts a call, and tells whether it is to fail.
    fn fails(&mut self) -> bool
        ensures untouched { IsUntouched self.old self.new }
        ensures script { script_of self.new ≡ called (script_of self.old) }
        ensures told { result ≡ is_failing (script_of self.old) }
    {
        self.made = self.made.saturating_add(1);
        self.made > self.stop_at || self.fail.contains(&self.made)
    }

    /// Counts a fault where memory ran out.
    fn answer(&mut self, done: Result<(), AllocError>) -> Result<(), Failed>
        ensures same { is_ok result ≡ is_ok done }
        ensures log { self.new.log ≡ self.old.log }
        ensures cause { HasCause self.old.faults self.new.faults result }
        ensures ok { OnOk result (script_of self.new ≡ script_of self.old) }
        ensures err { OnErr result (script_of self.new ≡ record (script_of self.old) { faults = risen self.old.faults 1; shortages = risen self.old.shortages 1 }) }
    {
        match done {
            Ok(()) => Ok(()),
            Err(_) => {
                self.shortages = one_more(self.shortages);
                self.fault();
                Err(Failed)
            }
        }
    }

    /// Counts a fault.
    fn fault(&mut self)
        ensures log { self.new.log ≡ self.old.log }
        ensures later { self.old.faults ≤ self.new.faults }
        ensures rose { Rose self.old.faults self.new.faults }
        ensures script { script_of self.new ≡ record (script_of self.old) { faults = risen self.old.faults 1 } }
    {
        self.faults = one_more(self.faults);
    }
}

impl Disk for MemoryDisk {
    ghost told = { λ disk. true };

    ghost state = { memory_state };

    ghost faults = { memory_faults };

    ghost lawful = { λ disk told. lawful (first_of disk.log.first disk.log.bytes.items) disk.log.calls.items };

    fn read(&mut self, at: u64, into: &mut [u8]) -> Result<(), Failed>
        requires { at + length into.old ≤ 2 ^ 62 }
        ensures bytes { OnOk result (into.new ≡ bytes_at (memory_state self.old).seen at (length into.old)) }
        ensures steps { Steps Same (memory_state self.old) (memory_state self.new) }
        ensures cause { HasCause (memory_faults self.old) (memory_faults self.new) result }
        ensures script { GoesBy (script_of self.old) (script_of self.new) result }
    {
        if self.fails() {
            self.fault();
            return Err(Failed);
        }
        read_into(&self.log.bytes, at, into);
        Ok(())
    }

    fn read_of(&mut self, _part: BlobPart, at: u64, into: &mut [u8]) -> Result<(), Failed>
        requires { at + length into.old ≤ 2 ^ 62 }
        ensures bytes { OnOk result (into.new ≡ bytes_at (memory_state self.old).seen at (length into.old)) }
        ensures steps { Steps Same (memory_state self.old) (memory_state self.new) }
        ensures cause { HasCause (memory_faults self.old) (memory_faults self.new) result }
        ensures script { GoesBy (script_of self.old) (script_of self.new) result }
    {
        self.read(at, into)
    }

    fn write_at(&mut self, at: u64, bytes: &[u8]) -> Result<(), Failed>
        requires { at + length bytes.now ≤ 2 ^ 62 }
        ensures written { OnOk result ((memory_state self.new).seen ≡ written at bytes.now (memory_state self.old).seen) }
        ensures kept { OnErr result ((memory_state self.new).seen ≡ (memory_state self.old).seen) }
        ensures steps { Steps (TornWrite at (length bytes.now)) (memory_state self.old) (memory_state self.new) }
        ensures cause { HasCause (memory_faults self.old) (memory_faults self.new) result }
        ensures script { GoesWithMemory (script_of self.old) (script_of self.new) result }
    {
        if self.fails() {
            let _ = fail_write(self.alloc, &mut self.log, at, bytes);
            self.fault();
            return Err(Failed);
        }
        let done = write(self.alloc, &mut self.log, at, bytes);
        self.answer(done)
    }

    fn write_of(
        &mut self,
        _part: BlobPart,
        _piece: u32,
        at: u64,
        bytes: &[u8],
    ) -> Result<(), Failed>
        requires { at + length bytes.now ≤ 2 ^ 62 }
        ensures written { OnOk result ((memory_state self.new).seen ≡ written at bytes.now (memory_state self.old).seen) }
        ensures kept { OnErr result ((memory_state self.new).seen ≡ (memory_state self.old).seen) }
        ensures steps { Steps (TornWrite at (length bytes.now)) (memory_state self.old) (memory_state self.new) }
        ensures cause { HasCause (memory_faults self.old) (memory_faults self.new) result }
        ensures script { GoesWithMemory (script_of self.old) (script_of self.new) result }
    {
        self.write_at(at, bytes)
    }

    fn cut(&mut self, length: u64) -> Result<(), Failed>
        requires { length ≤ 2 ^ 62 }
        ensures resized { OnOk result ((memory_state self.new).seen ≡ resized length (memory_state self.old).seen) }
        ensures kept { OnErr result ((memory_state self.new).seen ≡ (memory_state self.old).seen) }
        ensures steps { Steps (TornCut length) (memory_state self.old) (memory_state self.new) }
        ensures cause { HasCause (memory_faults self.old) (memory_faults self.new) result }
        ensures script { GoesWithMemory (script_of self.old) (script_of self.new) result }
    {
        if self.fails() {
            let _ = fail_cut(self.alloc, &mut self.log, length);
            self.fault();
            return Err(Failed);
        }
        let done = resize(self.alloc, &mut self.log, length);
        self.answer(done)
    }

    fn sync(&mut self) -> Result<(), Failed>
        ensures durable { OnOk result (Only (memory_state self.new).seen (memory_state self.new).may_leave) }
        ensures steps { Steps Same (memory_state self.old) (memory_state self.new) }
        ensures cause { HasCause (memory_faults self.old) (memory_faults self.new) result }
        ensures script { GoesWithMemory (script_of self.old) (script_of self.new) result }
    {
        if self.fails() {
            self.fault();
            return Err(Failed);
        }
        let done = sync(self.alloc, &mut self.log);
        self.answer(done)
    }

    fn fault_count(&self) -> u64 {
        self.faults
    }
}

/// Leaves a write in an image.
fn leave_write(
    alloc: Global,
    image: &mut Vec<u8>,
    at: u64,
    bytes: &[u8],
    pick: Pick,
) -> Result<(), AllocError>
    ensures { OnOk result (image.new.items ≡ write_left pick at bytes.now image.old.items) }
{
    match pick {
        Pick::Old => Ok(()),
        Pick::New => bytes::overwrite(image, at, bytes),
        Pick::Noise => {
            let noise = vec![in alloc; 0xA5; bytes.len()]?;
            bytes::overwrite(image, at, &noise)
        }
    }
}

/// Leaves a cut in an image.
fn leave_cut(image: &mut Vec<u8>, length: u64, pick: Pick) -> Result<(), AllocError>
    ensures { OnOk result (image.new.items ≡ cut_left pick length image.old.items) }
{
    match pick {
        Pick::Old => Ok(()),
        Pick::New => bytes::resize(image, length),
        Pick::Noise => bytes::spoil_end(image, length),
    }
}

/// Leaves a call in an image, where a read gave this before it.
fn leave(
    alloc: Global,
    seen: &[u8],
    image: &mut Vec<u8>,
    call: &Call,
    pick: Pick,
) -> Result<(), AllocError>
    ensures { OnOk result (image.new.items ≡ call_left pick call.now seen.now image.old.items) }
{
    match call {
        Call::Written(at, bytes) | Call::WriteFailed(at, bytes) => {
            leave_write(alloc, image, *at, bytes, pick)
        }
        Call::Resized(length) | Call::CutFailed(length) => leave_cut(image, *length, pick),
        Call::Synced => {
            *image = Vec::from_slice(alloc, seen)?;
            Ok(())
        }
    }
}

/// What a crash leaves after these calls.
fn left(alloc: Global, first: Vec<u8>, calls: &[Call], pick: Pick) -> Result<Vec<u8>, AllocError>
    ensures { IfOk result (λ image. image.items ≡ crashed pick calls.now first.items first.items) }
{
    let mut image = Vec::from_slice(alloc, &first)?;
    let mut seen = first;
    for call in calls {
        leave(alloc, &seen, &mut image, call, pick)?;
        redo(&mut seen, call)?;
    }
    Ok(image)
}

impl MemoryDisk {
    /// A disk as a crash now leaves it, by this pick. Nothing is pending on it, no call of it is to fail, and its counts and
    /// what was done to it begin anew. `AllocError` where memory runs out.
    pub fn crash(self, alloc: Global, pick: Pick) -> Result<MemoryDisk, AllocError>
        ensures image { IfOk result (λ disk. (memory_state self).may_leave (memory_state disk).seen) }
        ensures picked { IfOk result (λ disk. (memory_state disk).seen ≡ crash_by pick self) }
        ensures clean { IfOk result (λ disk. Only (memory_state disk).seen (memory_state disk).may_leave) }
        ensures faults { IfOk result (λ disk. memory_faults disk ≡ 0) }
        ensures script { IfOk result (λ disk. script_of disk ≡ new_script []) }
        ensures calls { IfOk result (λ disk. calls_of disk ≡ []) }
    {
        let Log {
            first,
            calls,
            bytes,
        } = self.log;
        let first = first.unwrap_or(bytes);
        let image = left(alloc, first, &calls, pick)?;
        Ok(MemoryDisk::new(alloc, image, Vec::new(alloc)))
    }
}
