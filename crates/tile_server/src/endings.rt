//! How the end of a command is told: its line, a second one with the file and what the system said, and the code.
use crate::catalogue_copies::tell_copy;
use crate::{CAPABILITIES, CATALOGUE, RECIPES, RENDERER};
use catalog::CatalogueFault;
use command_setup::CATALOGUE_LIMIT;
use command_status::Status;
use disk_model::FileFault;
use fault_paths::fault_paths;
use gate_journal::OpenFault;
use http_wire::{FileSource, read_all};
use program_files::{CacheDisk, RENDERER_LIMIT};
use server_command::RECIPES_LIMIT;
use std::fs::File;
use std::io;
use std::io::{Eprint, ErrorKind, Read};
use std::process::ExitCode;
use std::rt::Files;
use std::str::from_utf8;

/// The code of a command whose file another program works on.
const IN_USE: u8 = 17;

/// The most bytes of the capabilities document that a command reads.
const CAPABILITIES_LIMIT: usize = 4_194_304;

/// A file that a command worked on.
#[derive(Clone, Copy)]
pub struct WorkedFile {
    name: &'static str,
    fault: Option<FileFault>,
    in_use: bool,
}

impl WorkedFile {
    /// The file of this name, as it stands after the command.
    pub fn of(name: &'static str, disk: &CacheDisk) -> WorkedFile {
        WorkedFile {
            name,
            fault: disk.last_fault(),
            in_use: disk.is_in_use(),
        }
    }

    /// Tells what is wrong with the file, where something is.
    pub fn tell(&self, rt: &impl Eprint) {
        let name = self.name;
        if self.in_use {
            let _ = eprintln!(rt; "{name}: another program works on it (fuser {name} names it)");
            return;
        }
        if let Some(fault) = self.fault {
            let _ = eprintln!(rt; "{name}: {fault}");
        }
    }
}

/// Tells how many places of a job were rendered and could not be kept, where there are any, and behind it what the system said last of the
/// cache's file.
pub fn tell_unkept(rt: &impl Eprint, unkept: u64, cache: &WorkedFile) {
    if unkept == 0 {
        return;
    }
    let places = if unkept == 1 {
        "place was"
    } else {
        "places were"
    };
    let _ = eprintln!(rt;
        "{unkept} {places} not kept: keptLimit or blobBytes is reached, or the disk is full or fails; make room, and run the job again"
    );
    cache.tell(rt);
}

/// Reads the first byte of a file.
fn read_first(rt: &impl Files<File = File>, name: &str) -> io::Result<()> {
    let mut file = File::open(rt, name)?;
    let mut byte = [0; 1];
    file.read(&mut byte)?;
    Ok(())
}

/// How many bytes a file has now.
fn length_of(rt: &impl Files<File = File>, name: &str) -> io::Result<u64> {
    Ok(File::open(rt, name)?.metadata()?.len())
}

/// Tells of each of the files that are read whole what the system says now, where one is there and can't be read.
fn tell_unreadable(rt: &(impl Files<File = File> + Eprint)) {
    for name in [CATALOGUE, CAPABILITIES, RECIPES, RENDERER] {
        match read_first(rt, name) {
            Ok(()) => {}
            Err(error) if error.kind() == ErrorKind::NotFound => {}
            Err(error) => {
                let _ = eprintln!(rt; "{name}: {error}");
            }
        }
    }
}

/// Tells of each of the files that are read whole how long it is now, where that is more than is read of it.
fn tell_too_long(rt: &(impl Files<File = File> + Eprint)) {
    for (name, limit) in [
        (CATALOGUE, CATALOGUE_LIMIT),
        (CAPABILITIES, CAPABILITIES_LIMIT),
        (RECIPES, RECIPES_LIMIT),
        (RENDERER, RENDERER_LIMIT),
    ] {
        let length = length_of(rt, name).unwrap_or(0);
        if length > limit as u64 {
            let _ = eprintln!(rt; "{name}: {length} bytes, and {limit} at most are read");
        }
    }
}

/// Tells each place of the catalogue's text, as it is now, that a fault of it can mean.
fn tell_places(rt: &(impl Files<File = File> + Eprint + AllocGlobal), fault: CatalogueFault) {
    let alloc = rt.alloc();
    let Ok(text) = read_all(alloc, &mut FileSource::open(rt, CATALOGUE), CATALOGUE_LIMIT) else {
        return;
    };
    let Ok(lines) = fault_paths(alloc, text.as_slice(), fault) else {
        return;
    };
    if let Ok(lines) = from_utf8(lines.as_slice()) {
        let _ = eprint!(rt; "{lines}");
    }
}

/// Tells the end of a command on standard error, `Done` apart, and behind it why, where a file is the cause; and gives its code. A standard
/// error that takes nothing changes nothing.
pub fn end_with(
    rt: &(impl Files<File = File> + Eprint + AllocGlobal),
    status: Status,
    files: &[WorkedFile],
) -> ExitCode {
    let is_in_use = status == Status::DiskFault && files.iter().any(|file| file.in_use);
    if is_in_use {
        let _ = eprintln!(rt; "in use");
    } else if status != Status::Done {
        let _ = eprintln!(rt; "{status}");
    }
    match status {
        Status::DiskFault => files.iter().for_each(|file| file.tell(rt)),
        Status::ReadFault => tell_unreadable(rt),
        Status::TooLong => tell_too_long(rt),
        Status::Catalogue(fault) => tell_places(rt, fault),
        Status::Cache(OpenFault::CatalogueDiffers(kept, _)) => tell_copy(rt, &kept),
        Status::Usage => {
            let _ = eprintln!(rt; "tile_server --help lists the commands");
        }
        _ => {}
    }
    ExitCode::from(if is_in_use { IN_USE } else { status.code() })
}
