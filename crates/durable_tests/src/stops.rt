//! The table of stops: a cabinet's disk stops after 0, 1, 2 and so on calls, and what a crash then leaves is opened again.
ghost use Rattle.std.specs.Prelude.{◌≡◌};
ghost use Rattle.catalog.specs.Demo.{demo};

use crate::cabinets::{asked, cut, kept, made, opened};
use cabinet::{Finished, Keeper};
use disk_model::Pick;
use fixtures::SilentDisk;
use std::alloc::{AllocError, Global};
use std::test::Fail;

/// What is done while the disk may stop.
#[derive(Clone, Copy)]
enum Work {
    /// A tile of this byte is kept.
    Keeps(u8),
    /// All is truncated.
    Cuts,
}

/// Does the work; a fault of the disk is no matter here.
fn do_work<C: Keeper>(alloc: Global, cabinet: &mut C, what: Work) -> Result<bool, AllocError>
    requires { (C.state cabinet.old).catalogue ≡ demo }
    ensures { (C.state cabinet.new).catalogue ≡ demo }
{
    match what {
        Work::Keeps(byte) => Ok(matches!(kept(alloc, cabinet, byte)?, Finished::Kept)),
        Work::Cuts => cut(alloc, cabinet),
    }
}

/// What a disk is left with.
#[derive(Drop)]
struct Left {
    image: Vec<u8>,
    /// Whether the work was done.
    done: bool,
}

/// What a crash leaves where the disk with these bytes stops after so many calls of an opening and a work.
fn stopped(
    alloc: Global,
    bytes: &[u8],
    calls: u64,
    pick: Pick,
    what: Work,
) -> Result<Left, AllocError> {
    let mut disk = SilentDisk::new(alloc, Vec::from_slice(alloc, bytes)?, Vec::new(alloc));
    disk.stop_after(calls);
    match opened(alloc, disk)? {
        Err(disk) => Ok(Left {
            image: disk.left(alloc, pick)?,
            done: false,
        }),
        Ok(mut cabinet) => {
            let done = do_work(alloc, &mut cabinet, what);
            let disk = cabinet.take_apart().disk;
            let image = disk.left(alloc, pick)?;
            Ok(Left { image, done: done? })
        }
    }
}

/// The byte of the tile that an image has, 0 where it has none; `None` where it isn't opened.
fn seen(alloc: Global, image: Vec<u8>) -> Result<Option<u8>, AllocError> {
    let disk = SilentDisk::new(alloc, image, Vec::new(alloc));
    match opened(alloc, disk)? {
        Err(disk) => {
            drop(disk);
            Ok(None)
        }
        Ok(mut cabinet) => {
            let hit = asked(alloc, &mut cabinet);
            drop(cabinet);
            Ok(Some(hit?.unwrap_or(0)))
        }
    }
}

/// Whether each image has the tile from before the work or from after it, and that from after it where the work was done.
fn are_whole(alloc: Global, bytes: &[u8], what: Work, pick: Pick) -> Result<bool, AllocError> {
    let then = match what {
        Work::Keeps(byte) => byte,
        Work::Cuts => 0,
    };
    for calls in 0..64 {
        let left = stopped(alloc, bytes, calls, pick, what)?;
        let done = left.done;
        let seen = seen(alloc, left.image)?;
        if seen != Some(then) && (done || seen != Some(7)) {
            return Ok(false);
        }
        if done {
            return Ok(calls > 4);
        }
    }
    Ok(false)
}

/// The bytes of a cache in which a tile of sevens is kept.
fn with_sevens(alloc: Global) -> Result<Vec<u8>, Fail> {
    let empty = made(alloc)?;
    let left = stopped(alloc, empty.as_slice(), u64::MAX, Pick::New, Work::Keeps(7))?;
    if !left.done {
        return Err(Fail::from("the tile is not kept"));
    }
    Ok(left.image)
}

#[test]
fn each_image_has_the_tile_from_before_or_after(rt: HostRuntime) -> Result<(), Fail> {
    let bytes = with_sevens(rt.alloc())?;
    for pick in [Pick::Old, Pick::New, Pick::Noise] {
        for what in [Work::Keeps(9), Work::Cuts] {
            assert!(rt; are_whole(rt.alloc(), bytes.as_slice(), what, pick)?);
        }
    }
    Ok(())
}
