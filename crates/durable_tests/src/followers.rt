//! A follower, with its cabinet on one disk and its marks on another: what it answers to packets, in order and out of it.
ghost use Rattle.std.specs.Prelude.{◌≡◌};
ghost use Rattle.catalog.specs.Demo.{demo};

use crate::cabinets::{ALL, disk_of, kept, made, opened};
use cabinet::{Finished, Keeper};
use catalog::Catalogue;
use change_feed::{Applied, Feed};
use cut_follower::{Taken, take};
use disk_model::{Disk, Pick};
use fixtures::SilentDisk;
use outbox::Packet;
use served_covers::is_cover_of;
use std::alloc::{AllocError, Global};
use std::test::Fail;

/// A disk with a file of no marks.
fn unmarked(alloc: Global) -> Result<SilentDisk, Fail> {
    let mut disk = SilentDisk::new(alloc, Vec::new(alloc), Vec::new(alloc));
    if Feed::make(&Catalogue::demo(alloc)?, &mut disk).is_err() {
        return Err(Fail::from("the marks are not made"));
    }
    Ok(disk)
}

/// The feed of a disk.
fn fed(alloc: Global, disk: SilentDisk) -> Result<Feed<SilentDisk>, Fail> {
    let catalogue = Catalogue::demo(alloc)?;
    match Feed::open(alloc, &catalogue, disk) {
        Ok(feed) => Ok(feed),
        Err((fault, _)) => Err(fault.into()),
    }
}

/// Whether a change of all zooms comes to this, and is answered with this number as seen.
fn answers<D: Disk, C: Keeper>(
    alloc: Global,
    feed: &mut Feed<D>,
    cabinet: &mut C,
    number: u64,
    applied: Applied,
    seen: u64,
) -> Result<bool, AllocError> {
    if !is_cover_of(cabinet.catalogue(), &ALL) {
        return Ok(false);
    }
    match take(alloc, feed, cabinet, &Packet::Change(number, ALL))? {
        Taken::Answer(found, answer) => Ok(found == applied && answer == Packet::Seen(seen)),
        Taken::NotAChange => Ok(false),
    }
}

/// Whether a new follower, which keeps a tile, takes each packet as it has to, and the tile is gone then. The tile has the first number
/// of the cabinet.
fn takes_once_and_in_order<D: Disk, C: Keeper>(
    alloc: Global,
    feed: &mut Feed<D>,
    cabinet: &mut C,
) -> Result<bool, AllocError>
    requires { (C.state cabinet.old).catalogue ≡ demo }
{
    if kept(alloc, cabinet, 7)? != Finished::Kept || cabinet.kept() != 1 {
        return Ok(false);
    }
    for (number, applied, seen) in [
        (2, Applied::Gap(0), 0),
        (1, Applied::Done(1_099_511_627_778), 1),
        (1, Applied::Repeated, 1),
        (3, Applied::Gap(1), 1),
    ] {
        if !answers(alloc, feed, cabinet, number, applied, seen)? {
            return Ok(false);
        }
    }
    let seen = take(alloc, feed, cabinet, &Packet::Seen(2))?;
    Ok(matches!(seen, Taken::NotAChange) && cabinet.kept() == 0)
}

/// What a crash leaves of the marks of a new follower that took its packets as it has to; `None` where it didn't.
fn marks_left(
    alloc: Global,
    marks: SilentDisk,
    cache: SilentDisk,
) -> Result<Option<Vec<u8>>, Fail> {
    let mut feed = fed(alloc, marks)?;
    match opened(alloc, cache)? {
        Err(disk) => {
            drop(disk);
            drop(feed);
            Ok(None)
        }
        Ok(mut cabinet) => {
            let done = takes_once_and_in_order(alloc, &mut feed, &mut cabinet);
            drop(cabinet);
            let left = feed.close().left(alloc, Pick::Old)?;
            if done? {
                return Ok(Some(left));
            }
            Ok(None)
        }
    }
}

#[test]
fn a_change_is_taken_once_and_its_mark_outlasts_a_crash(rt: HostRuntime) -> Result<(), Fail> {
    let alloc = rt.alloc();
    let marks = unmarked(alloc)?;
    let cache = made(alloc)?;
    let left = marks_left(alloc, marks, disk_of(alloc, cache))?.ok_or("a packet is not taken so")?;
    assert!(rt; fed(alloc, disk_of(alloc, left))?.last() == 1);
    Ok(())
}
