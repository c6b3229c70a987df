//! Seals of a cache of the demo catalogue that keeps one tile: what becomes of its sum, and whether the tile is a hit behind it.
use crate::cabinets::{disk_of, made};
use crate::copies::{Copy, shown, with_tile};
use cache_seal::{SealFault, SealRule, SealTally, seal};
use config_text::read_catalogue;
use fixtures::SilentDisk;
use gate_journal::OpenFault;
use std::alloc::Global;
use std::test::Fail;
use tile_grain::grain_of;

/// What a seal came to, and the sums behind it.
#[derive(Drop)]
struct Sealed {
    end: Result<SealTally, SealFault>,
    sums: Vec<u8>,
}

/// Seals a cache of these files, of which these calls on its disk fail, counted from 1.
fn seal_of(alloc: Global, files: &Copy, anew: bool, fails: Vec<u64>) -> Result<Sealed, Fail> {
    let catalogue = match read_catalogue(alloc, b"") {
        Ok(catalogue) => catalogue,
        Err(_) => return Err(Fail::from("no catalogue")),
    };
    let grain = grain_of(alloc, b"")?;
    let disk = SilentDisk::new(alloc, Vec::from_slice(alloc, &files.disk)?, fails);
    let sums = disk_of(alloc, Vec::from_slice(alloc, &files.sums)?);
    let ended = seal(alloc, &catalogue, SealRule { grain, anew }, disk, sums);
    let sums = Vec::from_slice(alloc, ended.sums.bytes())?;
    Ok(Sealed {
        end: ended.end,
        sums,
    })
}

/// The files of a cache that keeps a tile of sevens.
fn with_sevens(alloc: Global) -> Result<Copy, Fail> {
    let empty = Copy {
        disk: made(alloc)?,
        sums: Vec::new(alloc),
    };
    with_tile(alloc, &empty, 7)
}

/// The same, but that the last byte of the tile is another one.
fn with_a_byte_turned(alloc: Global) -> Result<Copy, Fail> {
    let mut files = with_sevens(alloc)?;
    match files.disk.pop() {
        Some(byte) => files.disk.push(byte ^ 1)?,
        None => return Err(Fail::from("the disk is empty")),
    }
    Ok(files)
}

/// The tally of one tile.
fn one(sealed: u64, fitted: u64, unfit: u64, unread: u64) -> SealTally {
    SealTally {
        tiles: 1,
        sealed,
        fitted,
        unfit,
        unread,
    }
}

#[test]
fn a_tile_whose_sum_is_lost_is_a_hit_once_it_is_sealed(rt: HostRuntime) -> Result<(), Fail> {
    let alloc = rt.alloc();
    let files = with_sevens(alloc)?;
    let bare = Copy {
        disk: Vec::from_slice(alloc, &files.disk)?,
        sums: Vec::new(alloc),
    };
    assert!(rt; shown(alloc, &bare.disk, &bare.sums, true)? == None);
    let Sealed { end, sums } = seal_of(alloc, &bare, false, Vec::new(alloc))?;
    assert!(rt; end == Ok(one(1, 0, 0, 0)));
    assert!(rt; sums.as_slice() == files.sums.as_slice());
    assert!(rt; shown(alloc, &bare.disk, &sums, true)? == Some(7));
    let Sealed { end, sums } = seal_of(alloc, &files, true, Vec::new(alloc))?;
    assert!(rt; end == Ok(one(0, 1, 0, 0)));
    assert!(rt; sums.as_slice() == files.sums.as_slice());
    Ok(())
}

#[test]
fn a_sum_that_is_another_one_stays_unless_it_is_made_anew(rt: HostRuntime) -> Result<(), Fail> {
    let alloc = rt.alloc();
    let files = with_a_byte_turned(alloc)?;
    let Sealed { end, sums } = seal_of(alloc, &files, false, Vec::new(alloc))?;
    assert!(rt; end == Ok(one(0, 0, 1, 0)));
    assert!(rt; sums.as_slice() == files.sums.as_slice());
    assert!(rt; shown(alloc, &files.disk, &sums, true)? == None);
    let Sealed { end, sums } = seal_of(alloc, &files, true, Vec::new(alloc))?;
    assert!(rt; end == Ok(one(1, 0, 0, 0)));
    assert!(rt; shown(alloc, &files.disk, &sums, true)?.is_some());
    Ok(())
}

// The calls on the disk are those of the replay, and then a read of the tile.
#[test]
fn a_tile_that_is_not_read_is_counted_and_has_no_sum(rt: HostRuntime) -> Result<(), Fail> {
    let alloc = rt.alloc();
    let mut files = with_sevens(alloc)?;
    files.sums = Vec::new(alloc);
    let mut unread = 0;
    for call in 1..40 {
        let Sealed { end, sums } = seal_of(alloc, &files, false, [call].to_vec(alloc)?)?;
        match end {
            Ok(tally) if tally.unread == 1 => {
                assert!(rt; tally == one(0, 0, 0, 1));
                assert!(rt; sums.is_empty());
                unread = call;
            }
            Ok(tally) => assert!(rt; tally == one(1, 0, 0, 0) && unread > 0),
            Err(fault) => assert!(rt;
                fault == SealFault::Cache(OpenFault::DiskFault) && unread == 0
            ),
        }
    }
    assert!(rt; unread > 0);
    Ok(())
}
