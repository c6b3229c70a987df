//! Tests of gate_journal on images that are laid out by hand.
ghost use Rattle.std.specs.Prelude.{◌≡◌, ◌*◌, ◌≤◌, ◌^◌, IfOk, ⊤};
ghost use Rattle.disk_model.specs.Memory.{memory_state};
ghost use Rattle.gate_journal.specs.Sound.{IsSettled, IsSound, slots_of};

use crate::values::{are_bodies, body, digest};
use disk_model::{Disk, MemoryDisk};
use gate_journal::{Journal, Visit, make};
use std::alloc::{AllocError, Global};
use std::process::Abort;
use std::test::Fail;

/// A header under the digest of sevens, with this magic and a generation below 256.
fn header(magic: &[u8; 8], generation: u8) -> [u8; 64] {
    let mut slot = [0; 64];
    slot[..8].copy_from_slice(magic);
    slot[15] = generation;
    slot[16..48].copy_from_slice(&digest());
    slot[63] = 1;
    slot
}

/// Adds a half with these records, which ends here. All its other gates are closed.
fn push_half(image: &mut Vec<u8>, bodies: &[[u8; 63]], end: usize) -> Result<(), AllocError> {
    for body in bodies {
        image.extend_from_slice(body)?;
        image.push(1)?;
    }
    image.resize(end, 0)
}

/// An image with these headers, and halves of so many slots that hold these records.
fn image(
    alloc: Global,
    slots: usize,
    headers: [[u8; 64]; 2],
    halves: [&[[u8; 63]]; 2],
) -> Result<Vec<u8>, AllocError>
    requires { slots ≤ 2 ^ 40 }
{
    let [first, second] = headers;
    let mut image = first.to_vec(alloc)?;
    image.extend_from_slice(&second)?;
    let [first, second] = halves;
    push_half(&mut image, first, 128 + 64 * slots)?;
    push_half(&mut image, second, 128 + 128 * slots)?;
    Ok(image)
}

/// Makes a journal with halves of 224 slots, and adds a record.
fn begun(rt: &impl Abort, alloc: Global, disk: &mut MemoryDisk) -> Result<(), Fail> {
    make(disk, &digest(), 224)?;
    assert!(rt; disk.bytes().len() == 28_800);
    let mut journal = Journal::open(alloc, disk, &digest(), 224)?.journal;
    assert!(rt; journal.room() == 224);
    journal.append(disk, &body(5))?;
    Ok(())
}

#[test]
fn a_new_journal_has_its_bytes(rt: HostRuntime) -> Result<(), Fail> {
    let alloc = rt.alloc();
    let mut disk = MemoryDisk::new(alloc, vec![in alloc; 9; 30_000]?, Vec::new(alloc));
    begun(&rt, alloc, &mut disk)?;
    let headers = [header(b"WMTSJNL2", 1), [0; 64]];
    let laid_out = image(alloc, 224, headers, [&[body(5)], &[]])?;
    assert!(rt; disk.bytes() == laid_out.as_slice());
    Ok(())
}

/// The journal of a disk with halves of four slots, which opens to these records of this version.
fn opened(
    rt: &impl Abort,
    alloc: Global,
    disk: &mut MemoryDisk,
    version: u8,
    bodies: &[[u8; 63]],
) -> Result<Journal, Fail>
    ensures { IfOk result (λ j. IsSettled j × (slots_of j ≡ 4) × IsSound j (memory_state disk.new)) }
{
    disk.sync()?;
    assert!(rt; disk.bytes().len() == 640);
    let opened = Journal::open(alloc, disk, &digest(), 4)?;
    assert!(rt; opened.version == version);
    assert!(rt; are_bodies(opened.bodies.as_slice(), bodies));
    Ok(opened.journal)
}

#[test]
fn a_journal_of_version_1_is_compacted_to_version_2(rt: HostRuntime) -> Result<(), Fail> {
    let alloc = rt.alloc();
    let (old, new) = ([body(5), body(6)], [body(8)]);
    let headers = [header(b"WMTSJNL1", 9), [0; 64]];
    let first = image(alloc, 4, headers, [&old, &[]])?;
    let mut disk = MemoryDisk::new(alloc, first, Vec::new(alloc));
    let mut journal = opened(&rt, alloc, &mut disk, 1, &old)?;
    journal.compact(&mut disk, &new)?;
    assert!(rt; journal.version() == 2);
    let headers = [header(b"WMTSJNL1", 9), header(b"WMTSJNL2", 10)];
    let second = image(alloc, 4, headers, [&old, &new])?;
    assert!(rt; disk.bytes() == second.as_slice());
    opened(&rt, alloc, &mut disk, 2, &new)?;
    Ok(())
}

/// A body with a number of its own.
fn numbered(number: u64) -> [u8; 63] {
    let mut bytes = body(3);
    bytes[..8].copy_from_slice(&number.to_be_bytes());
    bytes
}

/// The bodies with the numbers from one on, up to before another.
fn numbered_from(alloc: Global, first: u64, end: u64) -> Result<Vec<[u8; 63]>, AllocError> {
    let mut bodies = Vec::new(alloc);
    for number in first..end {
        bodies.push(numbered(number))?;
    }
    Ok(bodies)
}

/// Counts the records that it is shown, and tells whether they came slot by slot with the numbers from the first one on.
#[derive(Drop)]
struct Count {
    first: u64,
    shown: u64,
    in_order: bool,
}

impl Visit for Count {
    ghost visits = { λ slot body old new. ⊤ };

    ghost leaves = { λ old new. ⊤ };

    fn body(&mut self, _: Global, slot: u64, body: &[u8; 63]) -> Result<(), AllocError> {
        let wanted = numbered(self.first.wrapping_add(slot));
        self.in_order = self.in_order && slot == self.shown && *body == wanted;
        self.shown = self.shown.wrapping_add(1);
        Ok(())
    }
}

/// The journal of a disk with halves of 1,600 slots, which opens to so many records with the numbers from this one on.
fn counted(
    rt: &impl Abort,
    alloc: Global,
    disk: &mut MemoryDisk,
    first: u64,
    count: u64,
) -> Result<Journal, Fail>
    ensures { IfOk result (λ j. IsSettled j × (slots_of j ≡ 1600) × IsSound j (memory_state disk.new)) }
{
    disk.sync()?;
    assert!(rt; disk.bytes().len() == 204_928);
    let mut visit = Count {
        first,
        shown: 0,
        in_order: true,
    };
    let journal = Journal::open_in_pieces(alloc, disk, &digest(), 1600, &mut visit)?;
    assert!(rt; visit.in_order && visit.shown == count);
    Ok(journal)
}

// All gates of the half that is written are open before.
#[test]
fn a_journal_of_several_pieces_is_compacted(rt: HostRuntime) -> Result<(), Fail> {
    let alloc = rt.alloc();
    let old = numbered_from(alloc, 0, 1500)?;
    let new = numbered_from(alloc, 4000, 5100)?;
    let stale = numbered_from(alloc, 8000, 9600)?;
    let headers = [header(b"WMTSJNL2", 6), [0; 64]];
    let first = image(alloc, 1600, headers, [&old, &stale])?;
    let mut disk = MemoryDisk::new(alloc, first, Vec::new(alloc));
    let mut journal = counted(&rt, alloc, &mut disk, 0, 1500)?;
    assert!(rt; new.len() == 1100);
    journal.compact(&mut disk, &new)?;
    let headers = [header(b"WMTSJNL2", 6), header(b"WMTSJNL2", 7)];
    let second = image(alloc, 1600, headers, [&old, &new])?;
    assert!(rt; disk.bytes() == second.as_slice());
    counted(&rt, alloc, &mut disk, 4000, 1100)?;
    Ok(())
}
