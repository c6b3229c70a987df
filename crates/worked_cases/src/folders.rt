//! What stands in a folder.
use std::alloc::Global;
use std::fs::File;
use std::io::ErrorKind;
use std::rt::Files;
use std::{fs, io};

/// The names of the folders in this one, in order.
pub fn names_in<R: Files<File = File> + AllocGlobal + Clone + Drop>(
    rt: &R,
    folder: &str,
) -> io::Result<Vec<String>> {
    let mut names = Vec::new(rt.alloc());
    for entry in fs::read_dir(rt, folder)? {
        let entry = entry?;
        if entry.file_type()?.is_dir() {
            names.push(String::from_str(rt.alloc(), entry.file_name())?)?;
        }
    }
    names.sort()?;
    Ok(names)
}

/// The bytes of a file; `None` where it isn't there.
pub fn bytes_of<R: Files<File = File> + AllocGlobal>(
    rt: &R,
    path: &str,
) -> io::Result<Option<Vec<u8>>> {
    match fs::read(rt, path) {
        Ok(bytes) => Ok(Some(bytes)),
        Err(error) if error.kind() == ErrorKind::NotFound => Ok(None),
        Err(error) => Err(error),
    }
}

/// The bytes of a file; none where it isn't there.
pub fn bytes_or_none<R: Files<File = File> + AllocGlobal>(
    rt: &R,
    path: &str,
) -> io::Result<Vec<u8>> {
    let bytes = bytes_of(rt, path)?;
    Ok(bytes.unwrap_or(Vec::new(rt.alloc())))
}

/// How many copies are gathered before they are appended together.
const COPIES: u64 = 4_096;

/// Appends these bytes so many times.
fn append(all: &mut Vec<u8>, bytes: &[u8], times: u64) -> io::Result<()> {
    for _ in 0..times {
        all.extend_from_slice(bytes)?;
    }
    Ok(())
}

/// These bytes, so many times one after the other.
pub fn repeated(alloc: Global, bytes: &[u8], times: u64) -> io::Result<Vec<u8>> {
    let mut copies = Vec::new(alloc);
    append(&mut copies, bytes, times.min(COPIES))?;
    let mut all = Vec::new(alloc);
    append(&mut all, copies.as_slice(), times / COPIES)?;
    append(&mut all, bytes, times % COPIES)?;
    Ok(all)
}
