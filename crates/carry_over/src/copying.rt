//! How the blobs of what is taken over come from the disk of the old cache into the file of the new one.
ghost use Rattle.std.specs.List.{AllByRecursion};
ghost use Rattle.std.specs.Prelude.{◌≡◌, ◌≤◌, ◌<◌, ◌^◌, ◌+◌, ℕ, List, [], true, false, IfErr, IfOk, IsTrue, OnOk, length};
ghost use Rattle.base.specs.Causes.{Rose, RoseBy};
ghost use Rattle.cabinet.specs.Gaps.{AreDisjoint};
ghost use Rattle.cache_file.specs.File.{HoldsBlob, IsApart};
ghost use Rattle.carry_over.specs.Chosen.{IsPartOf};
ghost use Rattle.carry_over.specs.Copied.{IsCopyOn, IsWhole, Notes};
ghost use Rattle.catalog.specs.Valid.{IsValid};
ghost use Rattle.disk_model.specs.Content.{Same};
ghost use Rattle.disk_model.specs.Images.{ChangesBy};
ghost use Rattle.raster_field.specs.Blocks.{IsMeta};

use crate::choosing::kept_at;
use crate::fault::CopyFault;
use crate::reading::read_blob;
use cabinet::Kept;
use cache_file::CacheFile;
use catalog::Catalogue;
use disk_model::Disk;
use metatile_plan::{MetaKey, tile_len};
use std::alloc::Global;

/// How many bytes each encoded tile of a metatile has.
fn piece_of(catalogue: &Catalogue, meta: &MetaKey) -> u32
    requires valid { IsValid catalogue.now }
    requires meta { IsMeta catalogue.now meta.now }
    ensures { 1 ≤ result }
{
    let bytes = tile_len(catalogue.matrix(meta.grid, meta.z));
    if bytes == 0 { 1 } else { bytes }
}

/// Copies the blob of a metatile into the file of the new cache; `false` where it wasn't read, which is only where the old disk's count of faults rose. The
/// old disk is only read. What the new file has elsewhere stays.
fn copy_one<D: Disk, E: Disk>(
    alloc: Global,
    to: &Catalogue,
    old: &mut D,
    start: u64,
    new: &mut CacheFile<E>,
    kept: Kept,
) -> Result<bool, CopyFault>
    requires valid { IsValid to.now }
    requires meta { IsMeta to.now kept.meta }
    requires end { start + kept.place + kept.length ≤ 2 ^ 61 }
    requires new_end { new.old.start + kept.place + kept.length ≤ 2 ^ 61 }
    requires whole { IsWhole (E.told new.old.disk) new.old.journal (E.state new.old.disk) }
    ensures old_told { D.told old.new ≡ D.told old.old }
    ensures quiet { IsTrue (D.told old.old) → ChangesBy Same (D.state old.old) (D.state old.new) }
    ensures old_later { D.faults old.old ≤ D.faults old.new }
    ensures told { E.told new.new.disk ≡ E.told new.old.disk }
    ensures start { new.new.start ≡ new.old.start }
    ensures journal { new.new.journal ≡ new.old.journal }
    ensures whole { IsWhole (E.told new.new.disk) new.new.journal (E.state new.new.disk) }
    ensures keeps { (place : ℕ) (blob : List ℕ) → IsTrue (E.told new.old.disk) → IsApart kept.place kept.length place (length blob) → HoldsBlob new.old.start place blob (E.state new.old.disk) → HoldsBlob new.old.start place blob (E.state new.new.disk) }
    ensures copied { IsTrue (D.told old.old) → IsTrue (E.told new.old.disk) → IfOk result (λ is. is ≡ true → IsCopyOn start (D.state old.old).seen new.old.start (E.state new.new.disk) kept) }
    ensures unread { IfOk result (λ is. is ≡ false → Rose (D.faults old.old) (D.faults old.new)) }
    ensures later { E.faults new.old.disk ≤ E.faults new.new.disk }
    ensures failed { IfErr result (λ fault. fault ≡ CopyFault.DiskFault → Rose (E.faults new.old.disk) (E.faults new.new.disk)) }
{
    let piece = piece_of(to, &kept.meta);
    match read_blob(
        alloc,
        old,
        kept.number,
        start + kept.place,
        kept.length,
        piece,
    ) {
        Err(_) => Err(CopyFault::OutOfMemory),
        Ok(None) => Ok(false),
        Ok(Some(blob)) => match new.put(kept.number, piece, kept.place, blob.as_slice()) {
            Err(_) => Err(CopyFault::DiskFault),
            Ok(()) => Ok(true),
        },
    }
}

/// Puts a metatile that was read behind the others, and counts one that wasn't.
fn note(kept: &mut Vec<Kept>, unread: &mut u64, one: Kept, is: bool) -> Result<(), CopyFault>
    requires { unread.old < 2 ^ 63 }
    ensures noted { OnOk result (Notes one is kept.old.items unread.old kept.new.items unread.new) }
    ensures failed { IfErr result (λ fault. fault ≡ CopyFault.OutOfMemory) }
{
    if is {
        match kept.push(one) {
            Err(_) => return Err(CopyFault::OutOfMemory),
            Ok(()) => return Ok(()),
        }
    }
    *unread += 1;
    Ok(())
}

/// Copies the blobs of metatiles into the file of the new cache, and lists those that were read; it gives how many weren't. That is 0 unless the old disk's
/// count of faults rose. The old disk is only read.
pub fn copy_all<D: Disk, E: Disk>(
    alloc: Global,
    to: &Catalogue,
    old: &mut D,
    start: u64,
    new: &mut CacheFile<E>,
    chosen: &[Kept],
    kept: &mut Vec<Kept>,
) -> Result<u64, CopyFault>
    requires valid { IsValid to.now }
    requires none { kept.old.items ≡ [] }
    requires metas { AllByRecursion (λ t. IsMeta to.now t.meta) chosen.now }
    requires disjoint { AreDisjoint chosen.now }
    requires within { AllByRecursion (λ t. t.place + t.length ≤ 2 ^ 60) chosen.now }
    requires start { start ≤ 2 ^ 60 }
    requires new_start { new.old.start ≤ 2 ^ 60 }
    requires whole { IsWhole (E.told new.old.disk) new.old.journal (E.state new.old.disk) }
    ensures old_told { D.told old.new ≡ D.told old.old }
    ensures quiet { IsTrue (D.told old.old) → ChangesBy Same (D.state old.old) (D.state old.new) }
    ensures told { E.told new.new.disk ≡ E.told new.old.disk }
    ensures start { new.new.start ≡ new.old.start }
    ensures journal { new.new.journal ≡ new.old.journal }
    ensures whole { IsWhole (E.told new.new.disk) new.new.journal (E.state new.new.disk) }
    ensures part { OnOk result (IsPartOf kept.new.items chosen.now) }
    ensures count { IfOk result (λ unread. length kept.new.items + unread ≡ length chosen.now) }
    ensures unread { IfOk result (λ unread. RoseBy unread (D.faults old.old) (D.faults old.new)) }
    ensures copied { IsTrue (D.told old.old) → IsTrue (E.told new.old.disk) → OnOk result (AllByRecursion (IsCopyOn start (D.state old.old).seen new.old.start (E.state new.new.disk)) kept.new.items) }
    ensures old_later { D.faults old.old ≤ D.faults old.new }
    ensures later { E.faults new.old.disk ≤ E.faults new.new.disk }
    ensures failed { IfErr result (λ fault. fault ≡ CopyFault.DiskFault → Rose (E.faults new.old.disk) (E.faults new.new.disk)) }
{
    let mut unread = 0;
    'copying: for at in 0..chosen.len() {
        let one = kept_at(chosen, at);
        let is = match copy_one(alloc, to, old, start, new, one) {
            Err(fault) => return Err(fault),
            Ok(is) => is,
        };
        match note(kept, &mut unread, one, is) {
            Err(fault) => return Err(fault),
            Ok(()) => {}
        }
    }
    Ok(unread)
}
