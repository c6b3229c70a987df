//! The files of a step and of its case.
use crate::folders::{bytes_of, bytes_or_none, repeated};
use std::fs::File;
use std::io;
use std::rt::Files;

/// Reads a file of a step; where the step has none, that of its case.
pub fn shared<R: Files<File = File> + AllocGlobal>(
    rt: &R,
    case: &str,
    step: &str,
    name: &str,
) -> io::Result<Vec<u8>> {
    let own = format!(in rt.alloc(); "{case}/{step}/{name}")?;
    if let Some(bytes) = bytes_of(rt, own.as_str())? {
        return Ok(bytes);
    }
    let common = format!(in rt.alloc(); "{case}/{name}")?;
    bytes_or_none(rt, common.as_str())
}

/// Reads a file of a step; no bytes where it has none.
pub fn own<R: Files<File = File> + AllocGlobal>(
    rt: &R,
    case: &str,
    step: &str,
    name: &str,
) -> io::Result<Vec<u8>> {
    let path = format!(in rt.alloc(); "{case}/{step}/{name}")?;
    bytes_or_none(rt, path.as_str())
}

/// The bytes of a file of a step, or else of its case, so many times.
pub fn shared_often<R: Files<File = File> + AllocGlobal>(
    rt: &R,
    case: &str,
    step: &str,
    name: &str,
    times: u64,
) -> io::Result<Vec<u8>> {
    let once = shared(rt, case, step, name)?;
    repeated(rt.alloc(), once.as_slice(), times)
}

/// The bytes of a file of a step, so many times.
pub fn own_often<R: Files<File = File> + AllocGlobal>(
    rt: &R,
    case: &str,
    step: &str,
    name: &str,
    times: u64,
) -> io::Result<Vec<u8>> {
    let once = own(rt, case, step, name)?;
    repeated(rt.alloc(), once.as_slice(), times)
}

/// Reads a file of a step as a text; an empty one where it has none.
pub fn text<R: Files<File = File> + AllocGlobal>(
    rt: &R,
    case: &str,
    step: &str,
    name: &str,
) -> io::Result<String> {
    let bytes = own(rt, case, step, name)?;
    String::from_utf8(bytes).map_err(|_| io::Error::from(io::ErrorKind::InvalidData))
}
