//! The word `seal`: the sums of what the cache of this folder keeps are written for what stands on its disk.
ghost use Rattle.std.specs.Prelude.{◌<◌, IfOk};
ghost use Rattle.catalog.specs.Valid.{IsValid};
ghost use Rattle.tile_grain.specs.Grain.{AreLongIn};

use crate::endings::{WorkedFile, end_with};
use crate::{CACHE, CATALOGUE, SUMS};
use cache_seal::{SealEnd, SealFault, SealRule, SealTally, seal as write_sums};
use catalog::{Catalogue, CatalogueFault};
use command_setup::CATALOGUE_LIMIT;
use command_status::{Status, status_of_input, status_of_opening};
use config_text::read_catalogue;
use disk_model::Disk;
use exact_ratio::Words;
use http_wire::{FileSource, read_all};
use program_files::CacheDisk;
use std::fs::{File, rename};
use std::io;
use std::io::{Eprint, Print};
use std::process::ExitCode;
use std::rt::Files;
use tile_grain::grain_of;

/// The file that sums are written to where the cache has none, before it takes the name of its sums.
const SUMS_PART: &str = "cache.sums.part";

/// A catalogue, and the least length of its tiles in bytes.
#[derive(Drop)]
struct GrainedCatalogue {
    catalogue: Catalogue,
    grain: u32,
}

/// The catalogue of this folder.
fn catalogue_here(rt: &(impl Files<File = File> + AllocGlobal)) -> Result<GrainedCatalogue, Status>
    ensures valid { IfOk result (λ read. IsValid read.catalogue) }
    ensures grain { IfOk result (λ read. 8 < read.grain) }
    ensures long { IfOk result (λ read. AreLongIn read.grain read.catalogue.grids) }
{
    let alloc = rt.alloc();
    let mut file = FileSource::open(rt, CATALOGUE);
    let text = match read_all(alloc, &mut file, CATALOGUE_LIMIT) {
        Ok(text) => text,
        Err(end) => return Err(status_of_input(end)),
    };
    let grain = match grain_of(alloc, text.as_slice()) {
        Ok(grain) => grain,
        Err(_) => return Err(Status::OutOfMemory),
    };
    match read_catalogue(alloc, text.as_slice()) {
        Ok(catalogue) => Ok(GrainedCatalogue { catalogue, grain }),
        Err(CatalogueFault::OutOfMemory) => Err(Status::OutOfMemory),
        Err(refused) => Err(Status::Catalogue(refused)),
    }
}

/// A file of sums.
#[derive(Drop)]
struct SumsFile {
    name: &'static str,
    disk: CacheDisk,
}

/// The file of the sums of a cache: the one that it has, or an empty one. Where the cache itself isn't had, none is made.
fn sums_for(rt: &impl Files<File = File>, cache: &CacheDisk) -> SumsFile {
    if !matches!(cache, CacheDisk::File(_)) {
        return SumsFile {
            name: SUMS,
            disk: CacheDisk::Absent(0),
        };
    }
    let there = CacheDisk::open_sums(rt, SUMS, false);
    if !matches!(there, CacheDisk::Absent(_)) {
        return SumsFile {
            name: SUMS,
            disk: there,
        };
    }
    let mut part = CacheDisk::open_sums(rt, SUMS_PART, true);
    // What an earlier seal left is of no use where this fails: a sum that is there stays, and is counted.
    let _ = part.cut(0);
    SumsFile {
        name: SUMS_PART,
        disk: part,
    }
}

/// Has sums that were made anew take their name, durably.
fn put_in_place(rt: &impl Files<File = File>, name: &str) -> io::Result<()> {
    if name == SUMS {
        return Ok(());
    }
    rename(rt, name, SUMS)?;
    File::open(rt, ".")?.sync_all()
}

/// The status of a seal that failed.
fn status_of_seal(fault: SealFault) -> Status {
    match fault {
        SealFault::Cache(fault) => status_of_opening(fault),
        SealFault::Sums => Status::DiskFault,
        SealFault::OutOfMemory => Status::OutOfMemory,
    }
}

/// Tells what became of the sums.
fn tell(rt: &impl Print, tally: SealTally) -> io::Result<()> {
    let SealTally {
        tiles,
        sealed,
        fitted,
        unfit,
        unread,
    } = tally;
    println!(rt; "sealed {sealed} of {tiles}, fitted {fitted}, unfit {unfit}, unread {unread}")
}

/// Ends a seal that came to this, with the files that it worked on.
fn end_seal(
    rt: &(impl Files<File = File> + Print + Eprint + AllocGlobal),
    name: &'static str,
    ended: &SealEnd<CacheDisk, CacheDisk>,
) -> ExitCode {
    let files = [
        WorkedFile::of(CACHE, &ended.disk),
        WorkedFile::of(name, &ended.sums),
    ];
    let tally = match ended.end {
        Ok(tally) => tally,
        Err(fault) => return end_with(rt, status_of_seal(fault), &files),
    };
    if let Err(error) = put_in_place(rt, name) {
        let code = end_with(rt, Status::DiskFault, &[]);
        let _ = eprintln!(rt; "{name}: rename: {error}");
        return code;
    }
    for file in &files {
        file.tell(rt);
    }
    match tell(rt, tally) {
        Ok(()) => end_with(rt, Status::Done, &[]),
        Err(_) => end_with(rt, Status::WriteFault, &[]),
    }
}

/// Seals the cache of this folder; `anew` says whether a sum that isn't that of its tile is written anew.
fn seal_here(
    rt: &(impl Files<File = File> + Print + Eprint + AllocGlobal),
    anew: bool,
) -> ExitCode {
    let read = match catalogue_here(rt) {
        Ok(read) => read,
        Err(status) => return end_with(rt, status, &[]),
    };
    let cache = CacheDisk::open(rt, CACHE, false);
    let SumsFile { name, disk: sums } = sums_for(rt, &cache);
    if matches!(sums, CacheDisk::Shut(_, _)) {
        return end_with(rt, Status::DiskFault, &[WorkedFile::of(name, &sums)]);
    }
    let rule = SealRule {
        grain: read.grain,
        anew,
    };
    let ended = write_sums(rt.alloc(), &read.catalogue, rule, cache, sums);
    end_seal(rt, name, &ended)
}

/// Does what the words of a seal say.
pub fn seal(
    rt: &(impl Files<File = File> + Print + Eprint + AllocGlobal),
    words: &[Words],
) -> ExitCode {
    match words {
        [_] => seal_here(rt, false),
        [_, flag] if flag.bytes() == b"--anew".as_slice() => seal_here(rt, true),
        _ => end_with(rt, Status::Usage, &[]),
    }
}
