//! The file that the cache is kept in.
ghost use Rattle.std.proofs.lemmas.Bool.{false≢true};
ghost use Rattle.std.specs.Prelude.{◌≡◌, false};
ghost use Rattle.base.specs.Causes.{HasCause};
ghost use Rattle.disk_model.specs.Images.{silent};
ghost use Rattle.program_files.specs.Faults.{faults_of_disk};

use base::one_more;
use disk_model::{BlobPart, Disk, Failed, FileCall, FileDisk, FileFault};
use std::fs::{File, OpenOptions, TryLockError};
use std::io;
use std::io::ErrorKind;
use std::rt::Files;

/// So many bytes at the front are the journal's headers. A file that ends before them reads as one without headers, which is no cache; where it ends
/// before anything else that was written, as a copy that was cut short, the read is a fault.
const HEADERS: u64 = 128;

/// The file that the cache is kept in. What it holds isn't modelled.
#[derive(Drop)]
pub enum CacheDisk {
    File(FileDisk),
    /// It isn't there: it reads as a file of no bytes, of which there is nothing to sync, and takes none. It has failed so often.
    Absent(u64),
    /// It is there, or is to be made, and can't be opened, or another program works on it, as the fault says: each call fails. It has failed
    /// so often.
    Shut(u64, FileFault),
}

/// Why a file isn't opened.
enum Unopened {
    /// It isn't there, and is not to be made.
    Absent,
    /// The system refused this.
    Refused(FileFault),
}

impl Unopened {
    /// A call of a file that the system refused, before it is open.
    fn of_refusal(call: FileCall, error: &io::Error) -> Unopened {
        Unopened::Refused(FileFault::of(call, 0, error))
    }

    /// Another program works on the file, of which the system tells no error.
    fn in_use() -> Unopened {
        Unopened::Refused(FileFault {
            call: FileCall::Lock,
            at: 0,
            code: None,
        })
    }
}

/// Opens a file for reading and writing, and makes it where that is asked for and it isn't there.
fn open_file<R: Files<File = File>>(rt: &R, path: &str, makes: bool) -> Result<File, Unopened> {
    let opened = OpenOptions::new()
        .read(true)
        .write(true)
        .create(makes)
        .open(rt, path);
    match opened {
        Ok(file) => Ok(file),
        Err(error) if error.kind() == ErrorKind::NotFound && !makes => Err(Unopened::Absent),
        Err(error) => Err(Unopened::of_refusal(FileCall::Open, &error)),
    }
}

/// Has a file for this program alone.
fn lock_file(file: &File) -> Result<(), Unopened> {
    match file.try_lock() {
        Ok(()) => Ok(()),
        Err(TryLockError::WouldBlock) => Err(Unopened::in_use()),
        Err(TryLockError::Error(error)) => Err(Unopened::of_refusal(FileCall::Lock, &error)),
    }
}

/// Has it durable that a file which was made is in the current folder.
fn sync_folder<R: Files<File = File>>(rt: &R) -> Result<(), Unopened> {
    match File::open(rt, ".").and_then(|folder| folder.sync_all()) {
        Ok(()) => Ok(()),
        Err(error) => Err(Unopened::of_refusal(FileCall::Sync, &error)),
    }
}

/// Opens a file for this program alone. That it is there is then durable.
fn open_alone<R: Files<File = File>>(rt: &R, path: &str, makes: bool) -> Result<File, Unopened> {
    let file = open_file(rt, path, makes)?;
    lock_file(&file)?;
    if makes {
        sync_folder(rt)?;
    }
    Ok(file)
}

/// Opens a file so, of which a read that begins below `padded`, in bytes, finds zeros past the end.
fn open_padded<R: Files<File = File>>(rt: &R, path: &str, makes: bool, padded: u64) -> CacheDisk {
    match open_alone(rt, path, makes) {
        Ok(file) => CacheDisk::File(FileDisk::new(file, padded)),
        Err(Unopened::Absent) => CacheDisk::Absent(0),
        Err(Unopened::Refused(fault)) => CacheDisk::Shut(0, fault),
    }
}

impl CacheDisk {
    /// Opens the file of this name in the current folder; `makes` says whether it is made where it isn't there.
    pub fn open<R: Files<File = File>>(rt: &R, path: &str, makes: bool) -> CacheDisk {
        open_padded(rt, path, makes, HEADERS)
    }

    /// Opens a file of sums of this name so, for who writes the ones that are missing: what lies past its end is read as zeros, which is no sum.
    pub fn open_sums<R: Files<File = File>>(rt: &R, path: &str, makes: bool) -> CacheDisk {
        open_padded(rt, path, makes, u64::MAX)
    }

    /// The call that failed last, and what the system said of it; `None` where none has failed, or the file isn't there.
    pub fn last_fault(&self) -> Option<FileFault> {
        match self {
            CacheDisk::File(file) => file.last_fault(),
            CacheDisk::Absent(_) => None,
            CacheDisk::Shut(_, fault) => Some(*fault),
        }
    }

    /// Whether another program works on the file.
    pub fn is_in_use(&self) -> bool {
        match self {
            CacheDisk::File(_) | CacheDisk::Absent(_) => false,
            CacheDisk::Shut(_, fault) => fault.call == FileCall::Lock && fault.code.is_none(),
        }
    }
}

/// A call on a file that isn't open, which fails and is counted.
fn count_fault(faults: &mut u64) -> Result<(), Failed>
    ensures { HasCause faults.old faults.new result }
{
    *faults = one_more(*faults);
    Err(Failed)
}

impl Disk for CacheDisk {
    ghost told = { λ _. false };

    ghost state = { λ _. silent };

    ghost faults = { faults_of_disk };

    ghost lawful = { λ _ told. absurd (false≢true told) };

    fn read(&mut self, at: u64, into: &mut [u8]) -> Result<(), Failed> {
        match self {
            CacheDisk::File(file) => file.read(at, into),
            CacheDisk::Absent(_) => {
                into.fill(0);
                Ok(())
            }
            CacheDisk::Shut(faults, _) => count_fault(faults),
        }
    }

    fn read_of(&mut self, part: BlobPart, at: u64, into: &mut [u8]) -> Result<(), Failed> {
        match self {
            CacheDisk::File(file) => file.read_of(part, at, into),
            CacheDisk::Absent(faults) => count_fault(faults),
            CacheDisk::Shut(faults, _) => count_fault(faults),
        }
    }

    fn write_at(&mut self, at: u64, bytes: &[u8]) -> Result<(), Failed> {
        match self {
            CacheDisk::File(file) => file.write_at(at, bytes),
            CacheDisk::Absent(faults) => count_fault(faults),
            CacheDisk::Shut(faults, _) => count_fault(faults),
        }
    }

    fn write_of(
        &mut self,
        part: BlobPart,
        piece: u32,
        at: u64,
        bytes: &[u8],
    ) -> Result<(), Failed> {
        match self {
            CacheDisk::File(file) => file.write_of(part, piece, at, bytes),
            CacheDisk::Absent(faults) => count_fault(faults),
            CacheDisk::Shut(faults, _) => count_fault(faults),
        }
    }

    fn cut(&mut self, length: u64) -> Result<(), Failed> {
        match self {
            CacheDisk::File(file) => file.cut(length),
            CacheDisk::Absent(faults) => count_fault(faults),
            CacheDisk::Shut(faults, _) => count_fault(faults),
        }
    }

    fn sync(&mut self) -> Result<(), Failed> {
        match self {
            CacheDisk::File(file) => file.sync(),
            CacheDisk::Absent(_) => Ok(()),
            CacheDisk::Shut(faults, _) => count_fault(faults),
        }
    }

    fn fault_count(&self) -> u64 {
        match self {
            CacheDisk::File(file) => file.fault_count(),
            CacheDisk::Absent(faults) | CacheDisk::Shut(faults, _) => *faults,
        }
    }
}
