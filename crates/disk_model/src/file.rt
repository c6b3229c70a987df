//! A disk over a real file. The bytes that it holds aren't modelled: the system below it is trusted.
ghost use Rattle.std.proofs.lemmas.Bool.{false≢true};
ghost use Rattle.std.specs.Prelude.{◌≡◌, false};
ghost use Rattle.base.specs.Causes.{HasCause};
ghost use Rattle.disk_model.specs.Images.{silent};

use crate::blob_part::BlobPart;
use crate::disk::{Disk, Failed};
use crate::file_fault::{FileCall, FileFault};
use base::one_more;
use std::fs::File;
use std::io;
use std::os::unix::fs::FileExt;

/// How many zeros are written at a time, in bytes.
const PIECE: usize = 65_536;

const ZEROS: [u8; PIECE] = [0; PIECE];

/// A disk over a real file. What it holds isn't modelled.
#[derive(Drop)]
pub struct FileDisk {
    file: File,
    /// A read that begins below this place finds zeros past the end of the file; each other one past the end fails.
    padded: u64,
    faults: u64,
    /// The call that failed last, and why.
    last: Option<FileFault>,
}

impl FileDisk {
    /// A disk over a file that is open for reading and writing. It has not failed yet. A read that begins below `padded`, in bytes, finds
    /// zeros past the end of the file; any other read past the end is a fault, since what was written there is lost.
    pub fn new(file: File, padded: u64) -> FileDisk
        ensures { result.faults ≡ 0 }
    {
        FileDisk {
            file,
            padded,
            faults: 0,
            last: None,
        }
    }

    /// The call that failed last, and what the system said of it; `None` where none has failed.
    pub fn last_fault(&self) -> Option<FileFault> {
        self.last
    }

    /// Counts a fault of this call, from this place on, where the system told one, and keeps why.
    fn answer(&mut self, call: FileCall, at: u64, done: io::Result<()>) -> Result<(), Failed>
        ensures { HasCause self.old.faults self.new.faults result }
    {
        match done {
            Ok(()) => Ok(()),
            Err(error) => {
                self.faults = one_more(self.faults);
                self.last = Some(FileFault::of(call, at, &error));
                Err(Failed)
            }
        }
    }
}

/// Reads from a place on. Past the end the bytes are 0.
fn read_padded(file: &File, at: u64, into: &mut [u8]) -> io::Result<()> {
    let length = file.metadata()?.len();
    let held = length.saturating_sub(at).min(into.len() as u64) as usize;
    file.read_exact_at(&mut into[..held], at)?;
    into[held..].fill(0);
    Ok(())
}

/// Writes zeros from one place up to another.
fn write_zeros(file: &File, from: u64, to: u64) -> io::Result<()> {
    for at in (from..to).step_by(PIECE) {
        let piece = (to - at).min(PIECE as u64) as usize;
        file.write_all_at(&ZEROS[..piece], at)?;
    }
    Ok(())
}

/// Gives a file this length. What is added is written, as zeros, so that the system has given room for it: a hole would be refused its room when
/// it is written to, which may be long after.
fn cut_to(file: &File, length: u64) -> io::Result<()> {
    let held = file.metadata()?.len();
    file.set_len(length)?;
    write_zeros(file, held, length)
}

impl Disk for FileDisk {
    ghost told = { λ disk. false };

    ghost state = { λ disk. silent };

    ghost faults = { λ disk. disk.faults };

    ghost lawful = { λ disk told. absurd (false≢true told) };

    fn read(&mut self, at: u64, into: &mut [u8]) -> Result<(), Failed> {
        let done = if at < self.padded {
            read_padded(&self.file, at, into)
        } else {
            self.file.read_exact_at(into, at)
        };
        self.answer(FileCall::Read, at, done)
    }

    // What was written of a blob is lost where the file ends before it.
    fn read_of(&mut self, _part: BlobPart, at: u64, into: &mut [u8]) -> Result<(), Failed> {
        let done = self.file.read_exact_at(into, at);
        self.answer(FileCall::Read, at, done)
    }

    fn write_at(&mut self, at: u64, bytes: &[u8]) -> Result<(), Failed> {
        let done = self.file.write_all_at(bytes, at);
        self.answer(FileCall::Write, at, done)
    }

    fn write_of(
        &mut self,
        _part: BlobPart,
        _piece: u32,
        at: u64,
        bytes: &[u8],
    ) -> Result<(), Failed> {
        self.write_at(at, bytes)
    }

    fn cut(&mut self, length: u64) -> Result<(), Failed> {
        let done = cut_to(&self.file, length);
        self.answer(FileCall::Cut, length, done)
    }

    fn sync(&mut self) -> Result<(), Failed> {
        let done = self.file.sync_data();
        self.answer(FileCall::Sync, 0, done)
    }

    fn fault_count(&self) -> u64 {
        self.faults
    }
}
