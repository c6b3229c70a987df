//! The cache: its file, and beside it that of the sums of its tiles.
ghost use Rattle.std.specs.Prelude.{◌<◌};

use crate::{CACHE, SUMS};
use disk_model::Disk;
use program_files::{CacheDisk, CacheFiles, Watch, WatchedCache};
use std::fs::File;
use std::io::Eprint;
use std::rt::Files;
use std::time::Clock;
use summed_disk::SummedDisk;

/// A file without sums.
pub fn without_sums(file: CacheDisk, grain: u32) -> CacheFiles
    requires { 8 < grain }
{
    SummedDisk::new(file, CacheDisk::Absent(0), false, grain)
}

/// The file of the sums of a cache whose file is had.
fn sums_for(rt: &impl Files<File = File>, path: &str, makes: bool) -> CacheDisk {
    let mut sums = CacheDisk::open(rt, path, makes);
    if makes {
        // Sums that are left of another cache fit none of its tiles: that they stay where this fails is no harm.
        let _ = sums.cut(0);
    }
    sums
}

/// Opens a cache's file, and the file of its sums where the first is had, by their names; `makes` says whether they are made where they aren't
/// there. Where no sums are had, that is told on standard error: where their file isn't there the tiles are then given as they are read, and
/// where it can't be opened none is given.
pub fn open_files_at(
    rt: &(impl Files<File = File> + Eprint),
    cache: &str,
    sums_path: &str,
    makes: bool,
    grain: u32,
) -> CacheFiles
    requires { 8 < grain }
{
    let disk = CacheDisk::open(rt, cache, makes);
    if !matches!(disk, CacheDisk::File(_)) {
        return without_sums(disk, grain);
    }
    let sums = sums_for(rt, sums_path, makes);
    let checked = match &sums {
        CacheDisk::File(_) => true,
        CacheDisk::Absent(_) => {
            let _ = eprintln!(rt;
                "no sums: {sums_path} isn't there, and tiles are given as they are read, until `tile_server seal` writes it"
            );
            false
        }
        CacheDisk::Shut(_, _) => {
            let _ = eprintln!(rt;
                "no sums: {sums_path} can't be opened, and no kept tile is given"
            );
            true
        }
    };
    SummedDisk::new(disk, sums, checked, grain)
}

/// Opens the cache of this folder so.
pub fn open_files(rt: &(impl Files<File = File> + Eprint), makes: bool, grain: u32) -> CacheFiles
    requires { 8 < grain }
{
    open_files_at(rt, CACHE, SUMS, makes, grain)
}

/// Opens the cache as `open_files` does, and has it watched.
pub fn open_cache<R>(rt: R, makes: bool, grain: u32, watch: Watch) -> WatchedCache<R>
where
    R: Files<File = File> + Clock + Eprint + Drop,
    requires { 8 < grain }
{
    let files = open_files(&rt, makes, grain);
    WatchedCache::new(rt, files, CACHE, watch)
}

/// No cache, for words that work on none.
pub fn no_cache<R: Clock + Eprint + Drop>(rt: R, grain: u32) -> WatchedCache<R>
    requires { 8 < grain }
{
    let watch = Watch {
        faults: false,
        opening: false,
    };
    WatchedCache::new(rt, without_sums(CacheDisk::Absent(0), grain), CACHE, watch)
}

/// Tells on standard error how many reads of kept tiles gave other bytes than were written, where there were any.
pub fn tell_unfit(rt: &impl Eprint, cache: &CacheFiles) {
    let unfit = cache.unfit();
    if unfit > 0 {
        let _ = eprintln!(rt;
            "unfit {unfit}: so many times a kept tile was not what had been written, or had no sum, and was rendered anew"
        );
    }
}
