//! The word `carry`: what is kept in the cache of another folder, or was kept in that of this one before its catalogue was edited, is taken over by a cache for
//! the catalogue of this folder.
ghost use Rattle.std.specs.Prelude.{◌<◌, IfOk, IfSome};
ghost use Rattle.catalog.specs.Valid.{IsValid};

use crate::cache::{open_files_at, without_sums};
use crate::catalogue_copies::{copy_name, keep_copy, remove_copy};
use crate::endings::{WorkedFile, end_with};
use crate::{CACHE, CATALOGUE, SUMS, exit_code};
use carry_over::{Carried, CarryFault, carry as take_over};
use catalog::{Catalogue, CatalogueFault};
use command_setup::CATALOGUE_LIMIT;
use command_status::{Status, status_of_input, status_of_opening};
use config_text::read_catalogue;
use durable_cabinet::replay;
use exact_ratio::Words;
use gate_journal::OpenFault;
use http_wire::{FileSource, read_all};
use program_files::{CacheDisk, CacheFiles, CountedDisk};
use std::alloc::{AllocError, Global};
use std::fs::{File, metadata, rename};
use std::io;
use std::io::{Eprint, IsTerminal, Print};
use std::process::ExitCode;
use std::rt::Files;
use std::str::from_utf8;
use tile_grain::grain_of;

/// The file that the new cache is made in, before it takes the name of the cache.
const PART: &str = "cache.part";

/// The sums of its tiles.
const SUMS_PART: &str = "cache.sums.part";

/// What the cache of another folder is told as.
const OLD_CACHE: &str = "the old cache.disk";

/// A catalogue with its text, and the least length of its tiles in bytes.
#[derive(Drop)]
struct ReadCatalogue {
    catalogue: Catalogue,
    text: Vec<u8>,
    grain: u32,
}

/// The status of a catalogue that is refused.
fn status_of_catalogue(fault: CatalogueFault) -> Status {
    match fault {
        CatalogueFault::OutOfMemory => Status::OutOfMemory,
        refused => Status::Catalogue(refused),
    }
}

/// Reads the catalogue of a file.
fn catalogue_in(
    rt: &(impl Files<File = File> + AllocGlobal),
    path: &str,
) -> Result<ReadCatalogue, Status>
    ensures { IfOk result (λ read. IsValid read.catalogue × (8 < read.grain)) }
{
    let alloc = rt.alloc();
    let mut file = FileSource::open(rt, path);
    let text = match read_all(alloc, &mut file, CATALOGUE_LIMIT) {
        Ok(text) => text,
        Err(end) => return Err(status_of_input(end)),
    };
    let Ok(grain) = grain_of(alloc, text.as_slice()) else {
        return Err(Status::OutOfMemory);
    };
    match read_catalogue(alloc, text.as_slice()) {
        Ok(catalogue) => Ok(ReadCatalogue {
            catalogue,
            text,
            grain,
        }),
        Err(fault) => Err(status_of_catalogue(fault)),
    }
}

/// The status of a carry that was refused.
fn status_of_carry(fault: CarryFault) -> Status {
    match fault {
        CarryFault::Old(fault) => status_of_opening(fault),
        CarryFault::NewDisk | CarryFault::NotMade => Status::DiskFault,
        CarryFault::CutsFull => Status::CutsFull,
        CarryFault::OutOfMemory => Status::OutOfMemory,
    }
}

/// Has what was made take the names of the cache and of its sums, durably. The cache comes first: a stop between the two leaves it beside sums
/// that fit none of its tiles.
fn put_in_place(rt: &impl Files<File = File>, new: &mut CacheFiles) -> io::Result<()> {
    if let CacheDisk::File(_) = &new.sums {
        let _ = disk_model::Disk::sync(&mut new.sums);
    }
    rename(rt, PART, CACHE)?;
    rename(rt, SUMS_PART, SUMS)?;
    File::open(rt, ".")?.sync_all()
}

/// Removes what a carry that failed has left of the new cache, as far as this program has its files.
fn remove_parts(rt: &impl Files<File = File>, new: &CacheFiles) {
    if let CacheDisk::File(_) = &new.disk {
        let _ = rt.remove_file(PART);
    }
    if let CacheDisk::File(_) = &new.sums {
        let _ = rt.remove_file(SUMS_PART);
    }
}

/// Tells what was taken over.
fn tell(rt: &impl Print, carried: Carried) -> io::Result<()> {
    let Carried {
        kept,
        cuts,
        roomless,
        unread,
    } = carried;
    println!(rt; "carried {kept}, cuts {cuts}, no room {roomless}, unread {unread}")
}

/// The names of the files of the folder whose cache is taken over.
#[derive(Drop)]
struct OldPaths {
    /// Whether it is this folder.
    is_here: bool,
    place: String,
    catalogue: String,
    cache: String,
    sums: String,
}

impl OldPaths {
    /// Those of a folder, or of this one.
    fn of(alloc: Global, folder: Option<&str>) -> Result<OldPaths, AllocError> {
        let place = folder.unwrap_or(".");
        Ok(OldPaths {
            is_here: folder.is_none(),
            catalogue: format!(in alloc; "{place}/{CATALOGUE}")?,
            cache: format!(in alloc; "{place}/{CACHE}")?,
            sums: format!(in alloc; "{place}/{SUMS}")?,
            place: String::from_str(alloc, place)?,
        })
    }

    /// What the old cache is told as.
    fn told_as(&self) -> &'static str {
        if self.is_here { CACHE } else { OLD_CACHE }
    }

    /// The name of the copy of the catalogue with this digest.
    fn copy_of(&self, alloc: Global, digest: &[u8; 32]) -> Result<String, AllocError> {
        let name = copy_name(alloc, digest)?;
        Ok(format!(in alloc; "{}/{name}", self.place)?)
    }
}

/// The digest of the catalogue that the old cache was made with, as an opening under the new one finds it; where it is refused for another cause, how the
/// carry ends.
fn digest_of_old(
    rt: &(impl Files<File = File> + Eprint + AllocGlobal),
    paths: &OldPaths,
    to: &ReadCatalogue,
) -> Result<[u8; 32], ExitCode>
    requires valid { IsValid to.now.catalogue }
    requires grain { 8 < to.now.grain }
{
    let files = without_sums(CacheDisk::open(rt, paths.cache.as_str(), false), to.grain);
    match replay(rt.alloc(), &to.catalogue, files) {
        Ok(opened) => {
            drop(opened);
            Ok(to.catalogue.digest)
        }
        Err((OpenFault::CatalogueDiffers(found, _), files)) => {
            drop(files);
            Ok(found)
        }
        Err((fault, files)) => {
            let status = status_of_opening(fault);
            Err(end_with(rt, status, &[WorkedFile::of(paths.told_as(), &files.disk)]))
        }
    }
}

/// The catalogue with this digest, of those in the files of these names.
fn catalogue_of_digest(
    rt: &(impl Files<File = File> + AllocGlobal),
    names: [&str; 2],
    digest: &[u8; 32],
) -> Option<ReadCatalogue>
    ensures { IfSome result (λ read. IsValid read.catalogue × (8 < read.grain)) }
{
    for name in names {
        if let Ok(read) = catalogue_in(rt, name) {
            if read.catalogue.digest == *digest {
                return Some(read);
            }
        }
    }
    None
}

/// The catalogue that the old cache was made with: that of its folder, or else the copy that lies there.
fn old_catalogue(
    rt: &(impl Files<File = File> + Eprint + AllocGlobal),
    paths: &OldPaths,
    to: &ReadCatalogue,
) -> Result<ReadCatalogue, ExitCode>
    requires valid { IsValid to.now.catalogue }
    requires grain { 8 < to.now.grain }
    ensures { IfOk result (λ read. IsValid read.catalogue × (8 < read.grain)) }
{
    let digest = digest_of_old(rt, paths, to)?;
    let Ok(copy) = paths.copy_of(rt.alloc(), &digest) else {
        return Err(end_with(rt, Status::OutOfMemory, &[]));
    };
    match catalogue_of_digest(rt, [paths.catalogue.as_str(), copy.as_str()], &digest) {
        Some(from) => Ok(from),
        None => {
            let fault = OpenFault::CatalogueDiffers(digest, to.catalogue.digest);
            let code = exit_code(rt, status_of_opening(fault));
            let _ = eprintln!(rt;
                "the catalogue that the cache was made with is neither {} nor {copy}",
                paths.catalogue
            );
            Err(code)
        }
    }
}

/// Ends a carry that came to this, with the files that it worked on.
fn end_carry(
    rt: &(impl Files<File = File> + Print + Eprint + AllocGlobal),
    end: Result<Carried, CarryFault>,
    old_name: &'static str,
    old: &CacheFiles,
    new: &mut CacheFiles,
    to: &ReadCatalogue,
) -> Result<Carried, ExitCode> {
    let files = [
        WorkedFile::of(old_name, &old.disk),
        WorkedFile::of(PART, &new.disk),
    ];
    let carried = match end {
        Ok(carried) => carried,
        Err(fault) => {
            remove_parts(rt, new);
            return Err(end_with(rt, status_of_carry(fault), &files));
        }
    };
    keep_copy(rt, &to.catalogue.digest, to.text.as_slice());
    if let Err(error) = put_in_place(rt, new) {
        let code = end_with(rt, Status::DiskFault, &[]);
        let _ = eprintln!(rt; "{PART}: rename: {error}");
        return Err(code);
    }
    Ok(carried)
}

/// Takes over the cache whose files have these names, and which was made with the first catalogue.
fn carry_between(
    rt: HostRuntime,
    paths: &OldPaths,
    from: &ReadCatalogue,
    to: &ReadCatalogue,
) -> Result<Carried, ExitCode>
    requires from { IsValid from.now.catalogue }
    requires from_grain { 8 < from.now.grain }
    requires to { IsValid to.now.catalogue }
    requires to_grain { 8 < to.now.grain }
{
    let (cache, sums) = (paths.cache.as_str(), paths.sums.as_str());
    let size = match metadata(&rt, cache) {
        Ok(data) if rt.stderr().is_terminal() => Some(data.len()),
        _ => None,
    };
    let old = CountedDisk::new(rt, open_files_at(&rt, cache, sums, false, from.grain), size);
    let new = open_files_at(&rt, PART, SUMS_PART, true, to.grain);
    let mut ended = take_over(rt.alloc(), &from.catalogue, &to.catalogue, old, new);
    end_carry(
        &rt,
        ended.end,
        paths.told_as(),
        &ended.old.disk,
        &mut ended.new,
        to,
    )
}

/// Takes over the cache whose files have these names.
fn carry_from(rt: HostRuntime, paths: &OldPaths) -> ExitCode {
    let to = match catalogue_in(&rt, CATALOGUE) {
        Ok(to) => to,
        Err(status) => return end_with(&rt, status, &[]),
    };
    let from = match old_catalogue(&rt, paths, &to) {
        Ok(from) => from,
        Err(code) => return code,
    };
    if paths.is_here && from.catalogue.digest == to.catalogue.digest {
        let _ = eprintln!(&rt; "{CACHE} is of this catalogue already");
        return end_with(&rt, Status::Done, &[]);
    }
    let carried = match carry_between(rt, paths, &from, &to) {
        Ok(carried) => carried,
        Err(code) => return code,
    };
    if paths.is_here {
        remove_copy(&rt, &from.catalogue.digest);
    }
    match tell(&rt, carried) {
        Ok(()) => end_with(&rt, Status::Done, &[]),
        Err(_) => end_with(&rt, Status::WriteFault, &[]),
    }
}

/// Takes over the cache of a folder, unless this folder has one; or that of this folder, which was made with an older catalogue.
fn carry_of(rt: HostRuntime, folder: Option<&str>) -> ExitCode {
    if folder.is_some() && File::open(&rt, CACHE).is_ok() {
        let code = end_with(&rt, Status::Usage, &[]);
        let _ = eprintln!(&rt; "{CACHE} is there already: move it away first");
        return code;
    }
    match OldPaths::of(rt.alloc(), folder) {
        Ok(paths) => carry_from(rt, &paths),
        Err(_) => end_with(&rt, Status::OutOfMemory, &[]),
    }
}

/// Does what the words of a carry say.
pub fn carry(rt: HostRuntime, words: &[Words]) -> ExitCode {
    match words {
        [_] => carry_of(rt, None),
        [_, folder] => match from_utf8(folder.bytes()) {
            Ok(folder) => carry_of(rt, Some(folder)),
            Err(_) => end_with(&rt, Status::Usage, &[]),
        },
        _ => end_with(&rt, Status::Usage, &[]),
    }
}
