//! The sums of the tiles of all that is kept.
ghost use Rattle.std.specs.List.{AllByRecursion};
ghost use Rattle.std.specs.Prelude.{◌≡◌, ◌⊎◌, ◌≤◌, ◌<◌, ◌+◌, ◌*◌, ◌^◌, ℕ, IfErr, IfOk, IsTrue, OnOk, Some, length, slice_get};
ghost use Rattle.base.specs.Causes.{Rose};
ghost use Rattle.cabinet.specs.Gaps.{AreDisjoint};
ghost use Rattle.cache_seal.specs.Fates.{AddsUp, no_tally};
ghost use Rattle.cache_seal.specs.OfCache.{blob_tiles, kept_tiles, tile_length};
ghost use Rattle.cache_seal.specs.Seals.{HasSealed};
ghost use Rattle.cache_seal.specs.Tiles.{tiles_in};
ghost use Rattle.cache_seal.specs.Unread.{HaveFaults};
ghost use Rattle.catalog.specs.Valid.{IsValid};
ghost use Rattle.disk_model.specs.Content.{Same};
ghost use Rattle.disk_model.specs.Images.{ChangesBy};
ghost use Rattle.raster_field.specs.Blocks.{IsMeta};
ghost use Rattle.tile_grain.specs.Grain.{AreLongIn};

use crate::counting::SealTally;
use crate::fault::SealFault;
use crate::judging::SealRule;
use crate::sealing_blob::seal_blob;
use crate::tiles::BlobTiles;
use cabinet::Kept;
use catalog::Catalogue;
use disk_model::Disk;
use metatile_plan::{MetaKey, tile_len};
use std::alloc::Global;

/// How many bytes each encoded tile of a metatile has.
fn tile_length(catalogue: &Catalogue, meta: &MetaKey) -> u32
    requires valid { IsValid catalogue.now }
    requires meta { IsMeta catalogue.now meta.now }
    ensures length { result ≡ tile_length catalogue.now meta.now }
    ensures long { (least : ℕ) → AreLongIn least catalogue.now.grids → least ≤ result }
{
    tile_len(catalogue.matrix(meta.grid, meta.z))
}

/// The tiles of a kept metatile, on a disk whose blobs begin at `start`. Each has a grain at least.
fn blob_tiles(catalogue: &Catalogue, grain: u32, start: u64, kept: &Kept) -> BlobTiles
    requires valid { IsValid catalogue.now }
    requires meta { IsMeta catalogue.now kept.now.meta }
    requires grain { 8 < grain }
    requires long { AreLongIn grain catalogue.now.grids }
    requires end { start + kept.now.place + kept.now.length ≤ 2 ^ 62 }
    ensures tiles { result ≡ blob_tiles start catalogue.now kept.now }
    ensures long { grain ≤ result.length }
    ensures within { result.count * result.length ≤ kept.now.length }
    ensures few { result.count ≤ kept.now.length }
{
    let length = tile_length(catalogue, &kept.meta);
    BlobTiles {
        number: kept.number,
        at: start + kept.place,
        length,
        count: kept.length / length,
    }
}

/// The one at a place of a list.
fn kept_at(kept: &[Kept], at: usize) -> Kept
    requires { at < length kept.now }
    ensures { slice_get kept.now at ≡ Some result }
{
    kept[at]
}

/// Looks after the sums of the tiles of a kept metatile, and counts what they came to.
fn seal_kept<D: Disk, S: Disk>(
    alloc: Global,
    catalogue: &Catalogue,
    rule: SealRule,
    disk: &mut D,
    sums: &mut S,
    start: u64,
    kept: Kept,
    tally: &mut SealTally,
) -> Result<(), SealFault>
    requires valid { IsValid catalogue.now }
    requires meta { IsMeta catalogue.now kept.meta }
    requires grain { 8 < rule.grain }
    requires long { AreLongIn rule.grain catalogue.now.grids }
    requires end { start + kept.place + kept.length ≤ 2 ^ 62 }
    requires sum { AddsUp tally.old }
    requires room { tally.old.tiles < 2 ^ 62 }
    ensures disk_told { D.told disk.new ≡ D.told disk.old }
    ensures quiet { IsTrue (D.told disk.old) → ChangesBy Same (D.state disk.old) (D.state disk.new) }
    ensures disk_later { D.faults disk.old ≤ D.faults disk.new }
    ensures told { S.told sums.new ≡ S.told sums.old }
    ensures later { S.faults sums.old ≤ S.faults sums.new }
    ensures sealed { OnOk result (HasSealed (D.told disk.old) (S.told sums.old) rule.grain rule.anew (D.state disk.old).seen (tiles_in (blob_tiles start catalogue.now kept)) (S.state sums.old).seen (S.state sums.new).seen tally.old tally.new) }
    ensures sum { OnOk result (AddsUp tally.new) }
    ensures many { OnOk result (tally.new.tiles ≡ tally.old.tiles + (blob_tiles start catalogue.now kept).count) }
    ensures few { OnOk result (tally.new.tiles < tally.old.tiles + 2 ^ 32) }
    ensures unread { OnOk result (HaveFaults tally.old.unread tally.new.unread (D.faults disk.old) (D.faults disk.new) (S.faults sums.old) (S.faults sums.new)) }
    ensures failed { IfErr result (λ fault. (fault ≡ SealFault.OutOfMemory) ⊎ ((fault ≡ SealFault.Sums) × Rose (S.faults sums.old) (S.faults sums.new))) }
{
    let tiles = blob_tiles(catalogue, rule.grain, start, &kept);
    let mut tile = match vec![in alloc; 0; tiles.length as usize] {
        Err(_) => return Err(SealFault::OutOfMemory),
        Ok(tile) => tile,
    };
    match seal_blob(rule, disk, sums, tiles, tile.as_mut_slice(), tally) {
        Err(_) => Err(SealFault::Sums),
        Ok(()) => Ok(()),
    }
}

/// Looks after the sum of each tile of what is kept on a disk whose blobs begin at `start`, and tells how many tiles came to what. The disk is
/// only read, and no other sum is written. Fails where memory runs out, and with `Sums` where one couldn't be written, which is only where the
/// count of faults of the sums rose; the tiles before that one were looked after.
pub(crate) fn seal_all<D: Disk, S: Disk>(
    alloc: Global,
    catalogue: &Catalogue,
    rule: SealRule,
    disk: &mut D,
    sums: &mut S,
    start: u64,
    kept: &[Kept],
) -> Result<SealTally, SealFault>
    requires valid { IsValid catalogue.now }
    requires grain { 8 < rule.grain }
    requires long { AreLongIn rule.grain catalogue.now.grids }
    requires start { start ≤ 2 ^ 60 }
    requires metas { AllByRecursion (λ t. IsMeta catalogue.now t.meta) kept.now }
    requires disjoint { AreDisjoint kept.now }
    requires within { AllByRecursion (λ t. t.place + t.length ≤ 2 ^ 60) kept.now }
    requires few { length kept.now ≤ 1048576 }
    ensures disk_told { D.told disk.new ≡ D.told disk.old }
    ensures quiet { IsTrue (D.told disk.old) → ChangesBy Same (D.state disk.old) (D.state disk.new) }
    ensures disk_later { D.faults disk.old ≤ D.faults disk.new }
    ensures told { S.told sums.new ≡ S.told sums.old }
    ensures later { S.faults sums.old ≤ S.faults sums.new }
    ensures sealed { IfOk result (HasSealed (D.told disk.old) (S.told sums.old) rule.grain rule.anew (D.state disk.old).seen (kept_tiles start catalogue.now kept.now) (S.state sums.old).seen (S.state sums.new).seen no_tally) }
    ensures sum { IfOk result AddsUp }
    ensures many { IfOk result (λ tally. tally.tiles ≡ length (kept_tiles start catalogue.now kept.now)) }
    ensures unread { IfOk result (λ tally. HaveFaults 0 tally.unread (D.faults disk.old) (D.faults disk.new) (S.faults sums.old) (S.faults sums.new)) }
    ensures failed { IfErr result (λ fault. (fault ≡ SealFault.OutOfMemory) ⊎ ((fault ≡ SealFault.Sums) × Rose (S.faults sums.old) (S.faults sums.new))) }
{
    let mut tally = SealTally::none();
    'sealing: for at in 0..kept.len() {
        let one = kept_at(kept, at);
        match seal_kept(alloc, catalogue, rule, disk, sums, start, one, &mut tally) {
            Err(fault) => return Err(fault),
            Ok(()) => {}
        }
    }
    Ok(tally)
}
