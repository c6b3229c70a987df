//! Tests of gate_journal.
ghost use Rattle.std.specs.Prelude.{length, ◌≡◌, ◌≤◌, IfOk, IsTrue};
ghost use Rattle.disk_model.specs.Memory.{memory_state};
ghost use Rattle.gate_journal.specs.Sound.{IsSettled, IsSound, slots_of};

use crate::values::{are_bodies, body, digest};
use disk_model::{Disk, Failed, MemoryDisk, Pick};
use gate_journal::{Journal, OpenFault, make};
use std::alloc::Global;
use std::process::Abort;
use std::test::Fail;

const PICKS: [Pick; 3] = [Pick::Old, Pick::New, Pick::Noise];

/// Adds a record of this byte to a settled journal that has room: whether that was done.
fn add<D: Disk>(rt: &impl Abort, disk: &mut D, journal: &mut Journal, byte: u8) -> bool
    requires { IsTrue (D.told disk.old) → IsSound journal.old (D.state disk.old) }
    ensures told { D.told disk.new ≡ D.told disk.old }
    ensures slots { slots_of journal.new ≡ slots_of journal.old }
    ensures sound { IsTrue (D.told disk.old) → IsSound journal.new (D.state disk.new) }
{
    assert!(rt; journal.settled());
    assert!(rt; journal.room() > 0);
    journal.append(disk, &body(byte)).is_ok()
}

/// Compacts a settled journal to these records: whether that was done.
fn compact<D: Disk>(
    rt: &impl Abort,
    disk: &mut D,
    journal: &mut Journal,
    bodies: &[[u8; 63]],
) -> bool
    requires fits { length bodies.now ≤ slots_of journal.old }
    requires sound { IsTrue (D.told disk.old) → IsSound journal.old (D.state disk.old) }
    ensures told { D.told disk.new ≡ D.told disk.old }
    ensures slots { slots_of journal.new ≡ slots_of journal.old }
    ensures sound { IsTrue (D.told disk.old) → IsSound journal.new (D.state disk.new) }
{
    assert!(rt; journal.settled());
    journal.compact(disk, bodies).is_ok()
}

/// A journal of halves of four slots, with two records.
fn made(rt: &impl Abort, alloc: Global) -> Result<(MemoryDisk, Journal), Fail>
    ensures { IfOk result (λ p. IsSettled p.1 × (slots_of p.1 ≡ 4) × IsSound p.1 (memory_state p.0)) }
{
    let mut disk = MemoryDisk::new(alloc, Vec::new(alloc), Vec::new(alloc));
    make(&mut disk, &digest(), 4)?;
    let mut journal = Journal::open(alloc, &mut disk, &digest(), 4)?.journal;
    assert!(rt; journal.room() == 4);
    assert!(rt; add(rt, &mut disk, &mut journal, 1));
    assert!(rt; add(rt, &mut disk, &mut journal, 2));
    assert!(rt; journal.settled());
    assert!(rt; journal.room() == 2);
    Ok((disk, journal))
}

/// The records of an image.
fn records(alloc: Global, disk: &mut MemoryDisk) -> Result<Vec<[u8; 63]>, Fail> {
    disk.sync()?;
    Ok(Journal::open(alloc, disk, &digest(), 4)?.bodies)
}

#[test]
fn records_outlive_compactions(rt: HostRuntime) -> Result<(), Fail> {
    let (mut disk, mut journal) = made(&rt, rt.alloc())?;
    assert!(rt; compact(&rt, &mut disk, &mut journal, &[body(3)]));
    assert!(rt; compact(&rt, &mut disk, &mut journal, &[body(4), body(5)]));
    let bodies = records(rt.alloc(), &mut disk)?;
    assert!(rt; are_bodies(bodies.as_slice(), &[body(4), body(5)]));
    Ok(())
}

fn other_digest() -> [u8; 32] {
    [8; 32]
}

/// Whether a disk, once it is synced, is refused under a digest for this fault.
fn is_refused(
    alloc: Global,
    disk: &mut MemoryDisk,
    digest: &[u8; 32],
    expected: &OpenFault,
) -> Result<bool, Failed> {
    disk.sync()?;
    match Journal::open(alloc, disk, digest, 4) {
        Ok(_) => Ok(false),
        Err(fault) => Ok(fault == *expected),
    }
}

/// Whether an empty disk is refused.
fn is_none_on_an_empty_disk(alloc: Global) -> Result<bool, Failed> {
    let mut empty = MemoryDisk::new(alloc, Vec::new(alloc), Vec::new(alloc));
    is_refused(alloc, &mut empty, &digest(), &OpenFault::NotACache)
}

#[test]
fn what_is_no_journal_of_this_digest_is_refused(rt: HostRuntime) -> Result<(), Fail> {
    let alloc = rt.alloc();
    let (mut disk, _) = made(&rt, alloc)?;
    let differs = OpenFault::CatalogueDiffers(digest(), other_digest());
    assert!(rt; is_refused(alloc, &mut disk, &other_digest(), &differs)?);
    disk.write_at(128 + 64 * 3 + 63, &[1])?;
    assert!(rt; is_refused(alloc, &mut disk, &digest(), &OpenFault::NotACache)?);
    assert!(rt; is_none_on_an_empty_disk(alloc)?);
    Ok(())
}

/// How many records the image of a pick opens to, after a record was added on a disk that stops after so many calls.
fn stopped_append(rt: &impl Abort, alloc: Global, calls: u64, pick: Pick) -> Result<usize, Fail> {
    let (mut disk, mut journal) = made(rt, alloc)?;
    disk.stop_after(calls);
    let done = add(rt, &mut disk, &mut journal, 3);
    assert!(rt; done == journal.settled());
    let mut image = disk.crash(alloc, pick)?;
    Ok(records(alloc, &mut image)?.len())
}

/// The same after a compaction to one record.
fn stopped_compaction(
    rt: &impl Abort,
    alloc: Global,
    calls: u64,
    pick: Pick,
) -> Result<usize, Fail> {
    let (mut disk, mut journal) = made(rt, alloc)?;
    disk.stop_after(calls);
    let done = journal.compact(&mut disk, &[body(3)]).is_ok();
    assert!(rt; done == journal.settled());
    let mut image = disk.crash(alloc, pick)?;
    Ok(records(alloc, &mut image)?.len())
}

// Its calls are write, sync, write, sync, and the gate is in the third.
#[test]
fn an_append_is_stopped_after_each_call(rt: HostRuntime) -> Result<(), Fail> {
    for (calls, counts) in [
        (0, [2, 2, 2]),
        (1, [2, 2, 2]),
        (2, [2, 3, 2]),
        (3, [2, 3, 2]),
        (4, [3, 3, 3]),
    ] {
        for (pick, count) in PICKS.into_iter().zip(counts) {
            let found = stopped_append(&rt, rt.alloc(), calls, pick)?;
            assert!(rt; found == count, "after {calls} calls");
        }
    }
    Ok(())
}

// Its calls are a read, a write and a sync of the other half, then write, sync, write, sync of its header.
#[test]
fn a_compaction_is_stopped_after_each_call(rt: HostRuntime) -> Result<(), Fail> {
    for calls in 0..8 {
        for pick in PICKS {
            let new = calls == 7 || calls >= 5 && pick == Pick::New;
            let count = stopped_compaction(&rt, rt.alloc(), calls, pick)?;
            assert!(rt; count == if new { 1 } else { 2 });
        }
    }
    Ok(())
}

/// The first byte of the last record of an image; 0 where there is none.
fn last_of(alloc: Global, image: &mut MemoryDisk) -> Result<u8, Fail> {
    let bodies = records(alloc, image)?;
    match bodies.as_slice().last() {
        Some(body) => Ok(body[0]),
        None => Ok(0),
    }
}

/// The last record that the image of a pick opens to, after a record failed at this call, and what the disk was then
/// stopped in after so many more: a call to settle, and where it succeeded another record.
fn settled_after(
    rt: &impl Abort,
    alloc: Global,
    failed: u64,
    settling: u64,
    pick: Pick,
) -> Result<u8, Fail> {
    let (mut disk, mut journal) = made(rt, alloc)?;
    disk.stop_after(failed);
    let failed = !add(rt, &mut disk, &mut journal, 3);
    assert!(rt; failed && !journal.settled() && journal.room() == 2);
    disk.stop_after(settling);
    let settled = journal.settle(&mut disk).is_ok();
    assert!(rt; settled == journal.settled());
    disk.stop_after(9);
    if settled && journal.room() > 0 {
        assert!(rt; add(rt, &mut disk, &mut journal, 4));
    }
    let mut image = disk.crash(alloc, pick)?;
    last_of(alloc, &mut image)
}

// The body failed, and then the sync; or the gate failed, and then its closing or the sync of that.
#[test]
fn a_failed_record_is_settled(rt: HostRuntime) -> Result<(), Fail> {
    let alloc = rt.alloc();
    for pick in PICKS {
        for (failed, settling, last) in [(1, 0, 2), (1, 1, 4), (3, 1, 2), (3, 2, 4)] {
            assert!(rt; settled_after(&rt, alloc, failed, settling, pick)? == last);
        }
        let left = settled_after(&rt, alloc, 2, 0, pick)?;
        assert!(rt; left == 2 || left == 3 && pick == Pick::New);
    }
    Ok(())
}
