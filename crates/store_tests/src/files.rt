//! Tests of cache_file. The blob of a number is eight bytes of it, at eight times the number.
ghost use Rattle.std.specs.Prelude.{◌≡◌, IfOk};
ghost use Rattle.disk_model.specs.Memory.{memory_state};
ghost use Rattle.gate_journal.specs.Sound.{IsSettled, IsSound, slots_of};

use crate::values::{body, digest};
use cache_file::{CacheFile, make};
use disk_model::{MemoryDisk, Pick};
use metatile_plan::Span;
use std::alloc::Global;
use std::process::Abort;
use std::test::Fail;

const PICKS: [Pick; 3] = [Pick::Old, Pick::New, Pick::Noise];

/// The file of a disk, whose journal has halves of two slots, and the bodies of its records.
fn opened(
    rt: &impl Abort,
    alloc: Global,
    disk: MemoryDisk,
) -> Result<(CacheFile<MemoryDisk>, Vec<[u8; 63]>), Fail>
    ensures { IfOk result (λ p. (slots_of p.0.journal ≡ 2) × IsSound p.0.journal (memory_state p.0.disk)) }
{
    assert!(rt; disk.bytes().len() >= 384);
    let mut bodies = Vec::new(alloc);
    match CacheFile::open(alloc, disk, &digest(), 2, &mut bodies) {
        Ok(file) => Ok((file, bodies)),
        Err((fault, _)) => Err(fault.into()),
    }
}

/// A new file.
fn made(rt: &impl Abort, alloc: Global) -> Result<CacheFile<MemoryDisk>, Fail>
    ensures { IfOk result (λ f. (slots_of f.journal ≡ 2) × IsSound f.journal (memory_state f.disk)) }
{
    let mut disk = MemoryDisk::new(alloc, Vec::new(alloc), Vec::new(alloc));
    make(&mut disk, &digest(), 2)?;
    Ok(opened(rt, alloc, disk)?.0)
}

/// Puts the blob of a number, and records it: whether both were done.
fn keep(rt: &impl Abort, file: &mut CacheFile<MemoryDisk>, number: u8) -> bool
    requires slots { slots_of file.old.journal ≡ 2 }
    requires sound { IsSound file.old.journal (memory_state file.old.disk) }
    ensures slots { slots_of file.new.journal ≡ 2 }
    ensures sound { IsSound file.new.journal (memory_state file.new.disk) }
{
    assert!(rt; file.settled());
    assert!(rt; file.room() > 0);
    match file.put(u64::from(number), 4, 8 * u64::from(number), &[number; 8]) {
        Ok(()) => file.record(&body(number)).is_ok(),
        Err(_) => false,
    }
}

/// Makes a file ready, whose one record is to be of nines where there is no room.
fn ready(file: &mut CacheFile<MemoryDisk>) -> bool
    requires slots { slots_of file.old.journal ≡ 2 }
    requires sound { IsSound file.old.journal (memory_state file.old.disk) }
    ensures slots { slots_of file.new.journal ≡ 2 }
    ensures sound { IsSound file.new.journal (memory_state file.new.disk) }
{
    file.ready(&[body(9)]).is_ok()
}

/// Stops the disk of a file after so many more calls.
fn stop_after(file: &mut CacheFile<MemoryDisk>, calls: u64)
    requires slots { slots_of file.old.journal ≡ 2 }
    requires sound { IsSound file.old.journal (memory_state file.old.disk) }
    ensures slots { slots_of file.new.journal ≡ 2 }
    ensures sound { IsSound file.new.journal (memory_state file.new.disk) }
{
    file.disk.stop_after(calls);
}

/// The four bytes in the middle of the blob of a number.
fn part(file: &mut CacheFile<MemoryDisk>, number: u8) -> Result<[u8; 4], Fail>
    requires slots { slots_of file.old.journal ≡ 2 }
    requires sound { IsSound file.old.journal (memory_state file.old.disk) }
    ensures slots { slots_of file.new.journal ≡ 2 }
    ensures sound { IsSound file.new.journal (memory_state file.new.disk) }
{
    let span = Span {
        start: 2,
        length: 4,
    };
    let mut part = [0; 4];
    file.read(u64::from(number), 8 * u64::from(number), &span, &mut part)?;
    Ok(part)
}

/// What a crash leaves by a pick: the first bytes of the bodies of its records, and parts of the blobs of 1 and 2.
fn left(
    rt: &impl Abort,
    alloc: Global,
    file: CacheFile<MemoryDisk>,
    pick: Pick,
) -> Result<(Vec<u8>, [u8; 4], [u8; 4]), Fail> {
    let image = file.into_disk().crash(alloc, pick)?;
    let (mut file, bodies) = opened(rt, alloc, image)?;
    let first = part(&mut file, 1)?;
    let second = part(&mut file, 2)?;
    let numbers = bodies.iter().map(|body| body[0]).collect(alloc)?;
    Ok((numbers, first, second))
}

// The calls are write and sync of the blob, write and sync of the body, write and sync of the gate.
#[test]
fn a_record_has_its_blob_after_each_stop(rt: HostRuntime) -> Result<(), Fail> {
    let alloc = rt.alloc();
    for calls in 0..7 {
        for pick in PICKS {
            let mut file = made(&rt, alloc)?;
            assert!(rt; keep(&rt, &mut file, 1));
            stop_after(&mut file, calls);
            let done = keep(&rt, &mut file, 2);
            assert!(rt; done == (calls == 6));
            let (numbers, first, second) = left(&rt, alloc, file, pick)?;
            assert!(rt; first == [1; 4]);
            if calls == 6 || calls >= 4 && pick == Pick::New {
                assert!(rt; numbers.as_slice() == [1, 2].as_slice());
                assert!(rt; second == [2; 4]);
            } else {
                assert!(rt; numbers.as_slice() == [1].as_slice());
            }
        }
    }
    Ok(())
}

#[test]
fn a_record_that_failed_is_none_once_the_file_is_ready(rt: HostRuntime) -> Result<(), Fail> {
    let alloc = rt.alloc();
    for calls in 2..6 {
        for pick in PICKS {
            let mut file = made(&rt, alloc)?;
            stop_after(&mut file, calls);
            assert!(rt; !keep(&rt, &mut file, 2));
            stop_after(&mut file, 9);
            assert!(rt; ready(&mut file));
            assert!(rt; keep(&rt, &mut file, 1));
            let (numbers, first, _) = left(&rt, alloc, file, pick)?;
            assert!(rt; numbers.as_slice() == [1].as_slice());
            assert!(rt; first == [1; 4]);
        }
    }
    Ok(())
}

/// Keeps two blobs, which leaves no room, and makes the file ready: whether all was done.
fn fills_and_replaces(rt: &impl Abort, file: &mut CacheFile<MemoryDisk>) -> bool
    requires slots { slots_of file.old.journal ≡ 2 }
    requires sound { IsSound file.old.journal (memory_state file.old.disk) }
{
    let first = keep(rt, file, 1);
    let is_ready = ready(file);
    let second = keep(rt, file, 2);
    let room = file.room();
    let is_replaced = ready(file);
    first && is_ready && second && room == 0 && is_replaced
}

#[test]
fn other_records_replace_those_that_leave_no_room(rt: HostRuntime) -> Result<(), Fail> {
    let alloc = rt.alloc();
    let mut file = made(&rt, alloc)?;
    assert!(rt; fills_and_replaces(&rt, &mut file));
    assert!(rt; file.version() == 2);
    assert!(rt; file.fault_count() == 0);
    let (numbers, first, second) = left(&rt, alloc, file, Pick::Old)?;
    assert!(rt; numbers.as_slice() == [9].as_slice());
    assert!(rt; (first, second) == ([1; 4], [2; 4]));
    Ok(())
}
