//! Copies of a cache whose parts are of different moments: with the sums of its tiles a tile is the one of its record, or rendered anew.
ghost use Rattle.std.specs.Prelude.{IfOk, IfSome, ◌≡◌};
ghost use Rattle.catalog.specs.Demo.{demo};

use crate::cabinets::{asked, disk_of, kept, made};
use base::Clock;
use cabinet::Finished;
use catalog::Catalogue;
use durable_cabinet::{Cabinet, Parts};
use fixtures::SilentDisk;
use std::alloc::{AllocError, Global};
use std::test::Fail;
use summed_disk::SummedDisk;

/// The bytes of the one tile that each metatile of the demo catalogue's corner has.
const TILE: usize = 23;

type Summed = SummedDisk<SilentDisk, SilentDisk>;

/// The two files of a cache.
#[derive(Drop)]
pub struct Copy {
    pub disk: Vec<u8>,
    pub sums: Vec<u8>,
}

/// A cabinet over a copy of these files; `None` where they are refused.
fn opened(
    alloc: Global,
    disk: &[u8],
    sums: &[u8],
    checked: bool,
) -> Result<Option<Cabinet<Summed>>, AllocError>
    ensures { IfOk result (λ c. IfSome c (λ c. c.state.catalogue ≡ demo)) }
{
    let disk = disk_of(alloc, Vec::from_slice(alloc, disk)?);
    let sums = disk_of(alloc, Vec::from_slice(alloc, sums)?);
    let catalogue = Catalogue::demo(alloc)?;
    let clock = Clock::listed(Vec::new(alloc));
    let summed = SummedDisk::new(disk, sums, checked, TILE as u32);
    match Cabinet::open(alloc, catalogue, clock, summed) {
        Ok(cabinet) => Ok(Some(cabinet)),
        Err(refusal) => {
            drop(refusal);
            Ok(None)
        }
    }
}

/// The files that a cabinet leaves.
fn left_by(alloc: Global, cabinet: Cabinet<Summed>) -> Result<Copy, AllocError> {
    let Parts { clock, disk } = cabinet.take_apart();
    drop(clock);
    let bytes = Vec::from_slice(alloc, disk.disk.bytes())?;
    let sums = Vec::from_slice(alloc, disk.sums.bytes())?;
    Ok(Copy { disk: bytes, sums })
}

/// The files once a tile of this byte is kept in the corner.
pub fn with_tile(alloc: Global, copy: &Copy, byte: u8) -> Result<Copy, Fail> {
    let Some(mut cabinet) = opened(alloc, &copy.disk, &copy.sums, true)? else {
        return Err(Fail::from("the cache is refused"));
    };
    let finished = kept(alloc, &mut cabinet, byte);
    let left = left_by(alloc, cabinet)?;
    if finished? != Finished::Kept {
        return Err(Fail::from("the tile is not kept"));
    }
    Ok(left)
}

/// The byte of the tile in the corner, where it is given.
pub fn shown(alloc: Global, disk: &[u8], sums: &[u8], checked: bool) -> Result<Option<u8>, Fail> {
    let Some(mut cabinet) = opened(alloc, disk, sums, checked)? else {
        return Err(Fail::from("the cache is refused"));
    };
    let hit = asked(alloc, &mut cabinet);
    drop(cabinet);
    Ok(hit?)
}

/// The files in the corner of which a tile of sevens stood first, then one of nines elsewhere, and then one of fives where the sevens had
/// stood: after the first of these, and after the last.
fn first_and_last(alloc: Global) -> Result<(Copy, Copy), Fail> {
    let empty = Copy {
        disk: made(alloc)?,
        sums: Vec::new(alloc),
    };
    let first = with_tile(alloc, &empty, 7)?;
    let second = with_tile(alloc, &first, 9)?;
    let last = with_tile(alloc, &second, 5)?;
    Ok((first, last))
}

/// A disk whose journal was copied from one, and whose tiles were copied from another one.
fn mixed(alloc: Global, journal: &[u8], tiles: &[u8], start: usize) -> Result<Vec<u8>, Fail> {
    if journal.len() < start || tiles.len() < start {
        return Err(Fail::from("the disk ends in its journal"));
    }
    let mut disk = Vec::from_slice(alloc, &journal[..start])?;
    disk.extend_from_slice(&tiles[start..])?;
    Ok(disk)
}

#[test]
fn a_copy_of_two_moments_shows_no_tile_of_another(rt: HostRuntime) -> Result<(), Fail> {
    let alloc = rt.alloc();
    let (first, last) = first_and_last(alloc)?;
    let start = first.disk.len().saturating_sub(TILE);
    let torn = mixed(alloc, &first.disk, &last.disk, start)?;
    assert!(rt; shown(alloc, &torn, &last.sums, false)? == Some(5));
    assert!(rt; shown(alloc, &torn, &last.sums, true)? == None);
    assert!(rt; shown(alloc, &torn, &first.sums, true)? == None);
    assert!(rt; shown(alloc, &last.disk, &first.sums, true)? == None);
    assert!(rt; shown(alloc, &first.disk, &last.sums, true)? == None);
    assert!(rt; shown(alloc, &first.disk, &first.sums, true)? == Some(7));
    assert!(rt; shown(alloc, &last.disk, &last.sums, true)? == Some(5));
    Ok(())
}

#[test]
fn a_copy_that_was_cut_short_shows_no_part_of_a_tile(rt: HostRuntime) -> Result<(), Fail> {
    let alloc = rt.alloc();
    let (first, last) = first_and_last(alloc)?;
    drop(last);
    let end = first.disk.len();
    for lost in 1..=TILE {
        let left = &first.disk[..end.saturating_sub(lost)];
        assert!(rt; shown(alloc, left, &first.sums, true)? == None);
    }
    for length in 0..first.sums.len() {
        let sums = &first.sums[..length];
        assert!(rt; shown(alloc, &first.disk, sums, true)? == None);
    }
    Ok(())
}
