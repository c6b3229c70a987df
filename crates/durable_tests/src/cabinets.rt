//! A cabinet of the demo catalogue on a disk: its calls on their happy path.
ghost use Rattle.std.specs.Prelude.{IfOk, ◌≡◌};
ghost use Rattle.catalog.specs.Demo.{demo};

use base::{Clock, SharedText};
use cabinet::{Asked, CutReply, Expired, Finished, Forced, Keeper, Saved};
use catalog::Catalogue;
use disk_model::Pick;
use durable_cabinet::{Cabinet, Parts, make};
use fixtures::{SilentDisk, corner_tile};
use matrix_geometry::Filter;
use raster_field::{blob_size, block_of, laws_of_metatiles};
use served_covers::is_cover_of;
use std::alloc::{AllocError, Global};
use std::test::Fail;
use truncation_list::Cover;

/// A cover of all zooms of the demo layer.
pub const ALL: Cover = Cover {
    layer: 0,
    grid: 0,
    z_start: 0,
    z_stop: 2,
    bounds: None,
    filter: Filter {
        style: None,
        dims: [None; 4],
    },
};

/// A cabinet on a disk of which contracts know the count of faults alone.
pub type OnDisk = Cabinet<SilentDisk>;

/// The bytes of an empty cache.
pub fn made(alloc: Global) -> Result<Vec<u8>, Fail> {
    let mut disk = SilentDisk::new(alloc, Vec::new(alloc), Vec::new(alloc));
    if make(&Catalogue::demo(alloc)?, &mut disk).is_err() {
        return Err(Fail::from("the cache is not made"));
    }
    Ok(Vec::from_slice(alloc, disk.bytes())?)
}

/// A cabinet that is opened from a disk, or the disk where it is refused.
pub fn opened(alloc: Global, disk: SilentDisk) -> Result<Result<OnDisk, SilentDisk>, AllocError>
    ensures { IfOk result (λ c. IfOk c (λ c. c.state.catalogue ≡ demo)) }
{
    let catalogue = Catalogue::demo(alloc)?;
    let clock = Clock::listed(Vec::new(alloc));
    match Cabinet::open(alloc, catalogue, clock, disk) {
        Ok(cabinet) => Ok(Ok(cabinet)),
        Err(refusal) => {
            let (_fault, disk) = refusal;
            Ok(Err(disk))
        }
    }
}

/// Begins a render of the corner, and hands in a blob of its length, all of one byte.
pub fn kept<C: Keeper>(alloc: Global, cabinet: &mut C, byte: u8) -> Result<Finished, AllocError>
    requires { (C.state cabinet.old).catalogue ≡ demo }
    ensures { (C.state cabinet.new).catalogue ≡ demo }
{
    cabinet.known();
    laws_of_metatiles();
    let meta = block_of(cabinet.catalogue(), &corner_tile());
    let size = blob_size(cabinet.catalogue(), &meta);
    let blob = SharedText::of(alloc, vec![in alloc; byte; size as usize]?)?;
    match cabinet.force(alloc, &meta)? {
        Forced::Ticket(ticket) => Ok(cabinet.finish(ticket, blob)),
        Forced::Busy(_) => Ok(Finished::Stranger),
        Forced::Spent => Ok(Finished::Stranger),
    }
}

/// Asks for the corner: the byte that all of it is, where it is a hit.
pub fn asked<C: Keeper>(alloc: Global, cabinet: &mut C) -> Result<Option<u8>, AllocError>
    requires { (C.state cabinet.old).catalogue ≡ demo }
    ensures { (C.state cabinet.new).catalogue ≡ demo }
{
    match cabinet.ask(alloc, &corner_tile())? {
        Asked::Hit(_, text) => Ok(Some(all_of(text.bytes()))),
        Asked::Ticket(ticket) => {
            cabinet.abandon(ticket);
            Ok(None)
        }
        Asked::Busy(_) => Ok(None),
        Asked::Spent => Ok(None),
    }
}

/// The byte that all bytes of a tile are; 0 where they differ.
fn all_of(text: &[u8]) -> u8 {
    let first = text.first().copied().unwrap_or(0);
    if text.iter().all(|byte| *byte == first) {
        return first;
    }
    0
}

/// A tile that is kept, asked for, and asked for again: whether it is a hit both times, and its use is then saved once.
fn kept_used_and_saved<C: Keeper>(alloc: Global, cabinet: &mut C) -> Result<bool, AllocError>
    requires { (C.state cabinet.old).catalogue ≡ demo }
    ensures { (C.state cabinet.new).catalogue ≡ demo }
{
    let finished = kept(alloc, cabinet, 7)?;
    let hit = asked(alloc, cabinet)?;
    if finished != Finished::Kept || hit != Some(7) {
        return Ok(false);
    }
    match cabinet.save_uses() {
        Saved::Done(_) => Ok(cabinet.save_uses() == Saved::Within),
        Saved::DiskFault(_, _) | Saved::Within => Ok(false),
    }
}

/// A hit, and then a truncation of all zooms, after which nothing is kept and no quota is exceeded.
fn found_and_cut<C: Keeper>(alloc: Global, cabinet: &mut C) -> Result<bool, AllocError>
    requires { (C.state cabinet.old).catalogue ≡ demo }
    ensures { (C.state cabinet.new).catalogue ≡ demo }
{
    let hit = asked(alloc, cabinet)?;
    if hit != Some(7) || !cut(alloc, cabinet)? {
        return Ok(false);
    }
    let gone = asked(alloc, cabinet)?.is_none() && cabinet.kept() == 0;
    Ok(gone && cabinet.expire() == Expired::Within)
}

/// Truncates all zooms of the demo layer: whether that was done.
pub fn cut<C: Keeper>(alloc: Global, cabinet: &mut C) -> Result<bool, AllocError>
    requires { (C.state cabinet.old).catalogue ≡ demo }
    ensures { (C.state cabinet.new).catalogue ≡ demo }
{
    cabinet.known();
    if !is_cover_of(cabinet.catalogue(), &ALL) {
        return Ok(false);
    }
    match cabinet.cut(alloc, &ALL)? {
        CutReply::Done(_) => Ok(true),
        CutReply::Full | CutReply::Spent | CutReply::DiskFault(_, _) => Ok(false),
    }
}

/// The bytes that a cabinet leaves on its disk.
fn left_by(alloc: Global, cabinet: OnDisk) -> Result<Vec<u8>, AllocError> {
    let Parts { clock, disk } = cabinet.take_apart();
    drop(clock);
    disk.left(alloc, Pick::New)
}

/// A disk with these bytes.
pub fn disk_of(alloc: Global, bytes: Vec<u8>) -> SilentDisk {
    SilentDisk::new(alloc, bytes, Vec::new(alloc))
}

/// The bytes that are left of a cache in which a tile was kept, used and saved; `None` where one of these failed.
fn kept_and_left(alloc: Global, disk: SilentDisk) -> Result<Option<Vec<u8>>, AllocError> {
    match opened(alloc, disk)? {
        Err(disk) => {
            drop(disk);
            Ok(None)
        }
        Ok(mut cabinet) => {
            let done = kept_used_and_saved(alloc, &mut cabinet);
            let bytes = left_by(alloc, cabinet)?;
            if done? {
                return Ok(Some(bytes));
            }
            Ok(None)
        }
    }
}

/// Whether a cache has one tile of 23 bytes, which is found, and gone after a truncation.
fn is_found_and_cut(alloc: Global, disk: SilentDisk) -> Result<bool, AllocError> {
    match opened(alloc, disk)? {
        Err(disk) => {
            drop(disk);
            Ok(false)
        }
        Ok(mut cabinet) => {
            let (count, bytes) = (cabinet.kept(), cabinet.used_all());
            let done = found_and_cut(alloc, &mut cabinet);
            drop(cabinet);
            let is_cut = done?;
            Ok(is_cut && count == 1 && bytes == 23)
        }
    }
}

#[test]
fn a_tile_is_kept_over_an_opening_and_truncated(rt: HostRuntime) -> Result<(), Fail> {
    let alloc = rt.alloc();
    let empty = made(alloc)?;
    let left = kept_and_left(alloc, disk_of(alloc, empty))?.ok_or("the tile is not kept")?;
    assert!(rt; is_found_and_cut(alloc, disk_of(alloc, left))?);
    Ok(())
}
