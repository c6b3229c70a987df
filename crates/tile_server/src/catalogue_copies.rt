//! The copy of the catalogue that the cache was made with, which lies beside the cache: by it a carry knows what is kept once the catalogue was edited in
//! place. Its name has the first 16 hexadecimal digits of the SHA-256 of its bytes, so that the copy of one catalogue never takes the place of another one's.
use crate::{CACHE, CATALOGUE};
use command_setup::CATALOGUE_LIMIT;
use http_wire::{FileSource, read_all};
use program_files::CacheDisk;
use sha2::{Digest, Sha256};
use std::alloc::{AllocError, Global};
use std::fs::{File, OpenOptions, rename};
use std::io;
use std::io::{Eprint, Read, Write};
use std::rt::Files;

/// The file that a copy is written in, before it takes its name.
const COPY_PART: &str = "catalogue.part";

/// How many bytes the two headers of a cache's journal have.
const HEADERS: usize = 128;

/// The name of the copy of the catalogue with this digest.
pub fn copy_name(alloc: Global, digest: &[u8; 32]) -> Result<String, AllocError> {
    let mut digits = String::new(alloc);
    for byte in &digest[..8] {
        let two = format!(in alloc; "{byte:02x}")?;
        digits.push_str(two.as_str())?;
    }
    Ok(format!(in alloc; "catalogue.{digits}.json")?)
}

/// The bytes of a file, if their digest is this. A file that is absent has no bytes.
fn bytes_of_digest(
    rt: &(impl Files<File = File> + AllocGlobal),
    name: &str,
    digest: &[u8; 32],
) -> Option<Vec<u8>> {
    let mut file = FileSource::open(rt, name);
    let Ok(bytes) = read_all(rt.alloc(), &mut file, CATALOGUE_LIMIT) else {
        return None;
    };
    if Sha256::digest(bytes.as_slice()) != *digest {
        return None;
    }
    Some(bytes)
}

/// Writes a copy under its name, durably. A stop before its end leaves none under that name.
fn write_copy(rt: &impl Files<File = File>, name: &str, bytes: &[u8]) -> io::Result<()> {
    let mut file = OpenOptions::new()
        .write(true)
        .create(true)
        .truncate(true)
        .open(rt, COPY_PART)?;
    file.write_all(bytes)?;
    file.sync_all()?;
    rename(rt, COPY_PART, name)?;
    File::open(rt, ".")?.sync_all()
}

/// Keeps a copy of a catalogue, unless there is one. That it can't be kept is told on standard error, and changes nothing else.
pub fn keep_copy(
    rt: &(impl Files<File = File> + Eprint + AllocGlobal),
    digest: &[u8; 32],
    bytes: &[u8],
) {
    let Ok(name) = copy_name(rt.alloc(), digest) else {
        return;
    };
    if bytes_of_digest(rt, name.as_str(), digest).is_some() {
        return;
    }
    if let Err(error) = write_copy(rt, name.as_str(), bytes) {
        let _ = eprintln!(rt;
            "warning: {name}: {error}: without this copy of the catalogue an edit of it in place can't be carried"
        );
    }
}

/// The two headers of the cache of this folder.
fn headers_here(rt: &impl Files<File = File>) -> io::Result<[u8; HEADERS]> {
    let mut headers = [0; HEADERS];
    File::open(rt, CACHE)?.read_exact(&mut headers)?;
    Ok(headers)
}

/// Whether one of the two headers of the cache of this folder has this digest.
fn is_of_cache(rt: &impl Files<File = File>, digest: &[u8; 32]) -> bool {
    let Ok(headers) = headers_here(rt) else {
        return false;
    };
    let (first, second) = (&headers[16..48], &headers[80..112]);
    first == digest.as_slice() || second == digest.as_slice()
}

/// Keeps a copy of the catalogue of this folder, unless there is one, if the cache, whose file this program has, was made with it.
pub fn keep_copy_of(rt: &(impl Files<File = File> + Eprint + AllocGlobal), cache: &CacheDisk) {
    if !matches!(cache, CacheDisk::File(_)) {
        return;
    }
    let mut file = FileSource::open(rt, CATALOGUE);
    let Ok(bytes) = read_all(rt.alloc(), &mut file, CATALOGUE_LIMIT) else {
        return;
    };
    let digest = Sha256::digest(bytes.as_slice());
    if is_of_cache(rt, &digest) {
        keep_copy(rt, &digest, bytes.as_slice());
    }
}

/// Removes the copy of a catalogue that no cache of this folder has any more.
pub fn remove_copy(rt: &(impl Files<File = File> + AllocGlobal), digest: &[u8; 32]) {
    if let Ok(name) = copy_name(rt.alloc(), digest) {
        let _ = rt.remove_file(name.as_str());
    }
}

/// Tells that a carry would keep the tiles of the cache of this folder, if it was made with the catalogue with this digest, and by which copy.
pub fn tell_copy(rt: &(impl Files<File = File> + Eprint + AllocGlobal), digest: &[u8; 32]) {
    if !is_of_cache(rt, digest) {
        return;
    }
    let Ok(name) = copy_name(rt.alloc(), digest) else {
        return;
    };
    let is_there = bytes_of_digest(rt, name.as_str(), digest).is_some();
    let found = if is_there { "is there" } else { "is not there" };
    let _ = eprintln!(rt;
        "tile_server carry keeps what the new catalogue paints the same; it goes by the catalogue of before, {name}, which {found}"
    );
}
