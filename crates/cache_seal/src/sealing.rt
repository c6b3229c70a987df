//! How a cache is sealed.
ghost use Rattle.std.specs.Prelude.{◌≡◌, ◌≤◌, ◌<◌, ◌^◌, IfErr, IfOk, IsTrue, OnOk, length};
ghost use Rattle.cache_seal.specs.Fates.{AddsUp, no_tally};
ghost use Rattle.cache_seal.specs.OfCache.{kept_tiles};
ghost use Rattle.cache_seal.specs.Ends.{IsKeptSo, IsLateFault, IsSealFault, IsSealed};
ghost use Rattle.cache_seal.specs.Seals.{HasSealed};
ghost use Rattle.cache_seal.specs.Unread.{HaveFaults};
ghost use Rattle.catalog.specs.Valid.{IsValid};
ghost use Rattle.disk_model.specs.Content.{Same};
ghost use Rattle.disk_model.specs.Images.{ChangesBy, Only};
ghost use Rattle.durable_cabinet.specs.Images.{blobs_start};
ghost use Rattle.tile_grain.specs.Grain.{AreLongIn};

use crate::counting::SealTally;
use crate::fault::SealFault;
use crate::judging::SealRule;
use crate::sealing_kept::seal_all;
use cabinet::Kept;
use cabinet_records::laws_of_replays;
use catalog::Catalogue;
use disk_model::Disk;
use durable_cabinet::replay;
use std::alloc::Global;

/// How a seal ended, and the two disks.
#[derive(Drop)]
pub struct SealEnd<D: Disk, S: Disk> {
    pub end: Result<SealTally, SealFault>,
    /// The disk of the cache.
    pub disk: D,
    /// The disk of the sums.
    pub sums: S,
}

/// Looks after the sums of what is kept, and has them durable.
fn seal_durably<D: Disk, S: Disk>(
    alloc: Global,
    catalogue: &Catalogue,
    rule: SealRule,
    disk: &mut D,
    sums: &mut S,
    start: u64,
    kept: &[Kept],
) -> Result<SealTally, SealFault>
    requires valid { IsValid catalogue.now }
    requires grain { 8 < rule.grain }
    requires long { AreLongIn rule.grain catalogue.now.grids }
    requires start { start ≤ 2 ^ 60 }
    requires kept { IsKeptSo catalogue.now kept.now }
    ensures disk_told { D.told disk.new ≡ D.told disk.old }
    ensures quiet { IsTrue (D.told disk.old) → ChangesBy Same (D.state disk.old) (D.state disk.new) }
    ensures disk_later { D.faults disk.old ≤ D.faults disk.new }
    ensures told { S.told sums.new ≡ S.told sums.old }
    ensures later { S.faults sums.old ≤ S.faults sums.new }
    ensures sealed { IfOk result (HasSealed (D.told disk.old) (S.told sums.old) rule.grain rule.anew (D.state disk.old).seen (kept_tiles start catalogue.now kept.now) (S.state sums.old).seen (S.state sums.new).seen no_tally) }
    ensures sum { IfOk result AddsUp }
    ensures many { IfOk result (λ tally. tally.tiles ≡ length (kept_tiles start catalogue.now kept.now)) }
    ensures unread { IfOk result (λ tally. HaveFaults 0 tally.unread (D.faults disk.old) (D.faults disk.new) (S.faults sums.old) (S.faults sums.new)) }
    ensures durable { IsTrue (S.told sums.old) → OnOk result (Only (S.state sums.new).seen (S.state sums.new).may_leave) }
    ensures failed { IfErr result (IsLateFault (S.faults sums.old) (S.faults sums.new)) }
{
    match seal_all(alloc, catalogue, rule, disk, sums, start, kept) {
        Err(fault) => Err(fault),
        Ok(tally) => match sums.sync() {
            Err(_) => Err(SealFault::Sums),
            Ok(()) => Ok(tally),
        },
    }
}

/// The same, with the disks by value.
fn seal_restored<D: Disk, S: Disk>(
    alloc: Global,
    catalogue: &Catalogue,
    rule: SealRule,
    disk: D,
    sums: S,
    start: u64,
    kept: &[Kept],
) -> SealEnd<D, S>
    requires valid { IsValid catalogue.now }
    requires grain { 8 < rule.grain }
    requires long { AreLongIn rule.grain catalogue.now.grids }
    requires start { start ≡ blobs_start catalogue.now }
    requires kept { IsKeptSo catalogue.now kept.now }
    ensures disk_told { D.told result.disk ≡ D.told disk }
    ensures quiet { IsTrue (D.told disk) → ChangesBy Same (D.state disk) (D.state result.disk) }
    ensures disk_later { D.faults disk ≤ D.faults result.disk }
    ensures told { S.told result.sums ≡ S.told sums }
    ensures later { S.faults sums ≤ S.faults result.sums }
    ensures sealed { IfOk result.end (HasSealed (D.told disk) (S.told sums) rule.grain rule.anew (D.state disk).seen (kept_tiles (blobs_start catalogue.now) catalogue.now kept.now) (S.state sums).seen (S.state result.sums).seen no_tally) }
    ensures sum { IfOk result.end AddsUp }
    ensures many { IfOk result.end (λ tally. tally.tiles ≡ length (kept_tiles (blobs_start catalogue.now) catalogue.now kept.now)) }
    ensures unread { IfOk result.end (λ tally. HaveFaults 0 tally.unread (D.faults disk) (D.faults result.disk) (S.faults sums) (S.faults result.sums)) }
    ensures durable { IsTrue (S.told sums) → OnOk result.end (Only (S.state result.sums).seen (S.state result.sums).may_leave) }
    ensures failed { IfErr result.end (IsLateFault (S.faults sums) (S.faults result.sums)) }
{
    let mut disk = disk;
    let mut sums = sums;
    let end = seal_durably(alloc, catalogue, rule, &mut disk, &mut sums, start, kept);
    SealEnd { end, disk, sums }
}

/// Seals a cache: looks at each tile of what its disk keeps, and writes its sum where there is none. It believes the bytes that it reads. A sum
/// that is there stays, whether it is that of its tile or not; by a rule that makes sums anew it is written where it isn't. Afterwards each tile
/// that was read and whose sum doesn't stay unfit has the sum of what the disk gives, durably, and no other sum was written. How many tiles came
/// to what is counted.
///
/// The cache isn't opened: its disk is only read and synced, and at each moment a crash leaves of it what it might have left before. A tile that
/// couldn't be read, or whose sum couldn't, is counted, and what stands there stays; each such tile has a fault of its own, by which the count of
/// one of the two disks rose (`specs/Unread.antt`).
/// A crash within leaves some sums written and others not: a `SummedDisk` gives no tile but one that has its sum, so such a tile isn't given until
/// it is sealed or rendered anew.
///
/// Each fault has its cause (`specs/Ends.antt`); behind one some sums may be written.
pub fn seal<D: Disk, S: Disk>(
    alloc: Global,
    catalogue: &Catalogue,
    rule: SealRule,
    disk: D,
    sums: S,
) -> SealEnd<D, S>
    requires valid { IsValid catalogue.now }
    requires grain { 8 < rule.grain }
    requires long { AreLongIn rule.grain catalogue.now.grids }
    ensures disk_told { D.told result.disk ≡ D.told disk }
    ensures quiet { IsTrue (D.told disk) → ChangesBy Same (D.state disk) (D.state result.disk) }
    ensures disk_later { D.faults disk ≤ D.faults result.disk }
    ensures told { S.told result.sums ≡ S.told sums }
    ensures later { S.faults sums ≤ S.faults result.sums }
    ensures sealed { IfOk result.end (IsSealed (D.told disk) (S.told sums) catalogue.now rule.grain rule.anew (D.state disk).seen (S.state sums).seen (S.state result.sums).seen) }
    ensures unread { IfOk result.end (λ tally. HaveFaults 0 tally.unread (D.faults disk) (D.faults result.disk) (S.faults sums) (S.faults result.sums)) }
    ensures durable { IsTrue (S.told sums) → OnOk result.end (Only (S.state result.sums).seen (S.state result.sums).may_leave) }
    ensures cause { IfErr result.end (IsSealFault (D.told disk) catalogue.now (D.state disk).seen (D.faults disk) (D.faults result.disk) (S.faults sums) (S.faults result.sums) (result.sums ≡ sums)) }
{
    laws_of_replays();
    match replay(alloc, catalogue, disk) {
        Err((fault, disk)) => SealEnd {
            end: Err(SealFault::Cache(fault)),
            disk,
            sums,
        },
        Ok((file, restored)) => {
            let start = file.start;
            let disk = file.into_disk();
            seal_restored(
                alloc,
                catalogue,
                rule,
                disk,
                sums,
                start,
                restored.kept.as_slice(),
            )
        }
    }
}
