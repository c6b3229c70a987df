//! A file as a source of bytes, also where it is absent or can't be opened.
ghost use Rattle.std.specs.Prelude.{◌≡◌, None};

use crate::streams::{ByteSource, Failed};
use std::fs::File;
use std::io::{ErrorKind, Read};
use std::rt::Files;

/// How the file was found.
#[derive(Drop)]
enum LookOutcome {
    Opened(File),
    Absent,
    Shut,
}

/// The bytes of a file. Its content isn't modelled.
#[derive(Drop)]
pub struct FileSource {
    found: LookOutcome,
    faults: u64,
}

impl FileSource {
    /// Opens a file. An absent one has no bytes; of one that is there and can't be opened every take fails.
    pub fn open<R: Files<File = File>>(rt: &R, path: &str) -> FileSource
        ensures { ⟦<FileSource as ByteSource>⟧.faults result ≡ 0 }
    {
        let found = match File::open(rt, path) {
            Ok(file) => LookOutcome::Opened(file),
            Err(error) => {
                if error.kind() == ErrorKind::NotFound {
                    LookOutcome::Absent
                } else {
                    LookOutcome::Shut
                }
            }
        };
        FileSource { found, faults: 0 }
    }
}

impl ByteSource for FileSource {
    ghost left = { λ _. None };

    ghost faults = { λ s. s.faults };

    fn take(&mut self, into: &mut [u8]) -> Result<usize, Failed> {
        let answer = match &mut self.found {
            LookOutcome::Opened(file) => file.read(into).map_err(|_| Failed),
            LookOutcome::Absent => Ok(0),
            LookOutcome::Shut => Err(Failed),
        };
        if answer.is_err() {
            self.faults = base::one_more(self.faults);
        }
        answer
    }
}
