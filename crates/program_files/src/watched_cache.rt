//! The cache of a program that tells on standard error what fails on it, when it fails, and how far a long opening is.
ghost use Rattle.std.proofs.lemmas.Bool.{false≢true};
ghost use Rattle.std.specs.Prelude.{◌≡◌, false};
ghost use Rattle.disk_model.specs.Images.{silent};

use crate::cache_disk::CacheDisk;
use disk_model::{BlobPart, Disk, Failed, FileFault};
use std::io::Eprint;
use std::time::{Clock, Duration};
use summed_disk::SummedDisk;

/// How many seconds nothing further is told once a fault was told.
const BETWEEN_FAULTS: u64 = 60;

/// How many seconds an opening is silent at first, and between two lines.
const BETWEEN_LINES: u64 = 2;

/// The files of the cache: its own, and that of the sums of its tiles.
pub type CacheFiles = SummedDisk<CacheDisk, CacheDisk>;

/// Which lines are written of a cache while a program works on it.
#[derive(Clone, Copy)]
pub struct Watch {
    /// A fault, when it comes, at most one a minute.
    pub faults: bool,
    /// How much of the journal was read, every two seconds of the opening.
    pub opening: bool,
}

/// When something was told last, and how much there has been to tell.
#[derive(Clone, Copy)]
struct Telling {
    at: Option<Duration>,
    count: u64,
}

impl Telling {
    /// Nothing was told yet; what comes within the first time is told only behind it, if `at` says when it began.
    fn since(at: Option<Duration>) -> Telling {
        Telling { at, count: 0 }
    }

    /// Counts so much more. Gives all that was counted, if so many seconds have gone by since something was told; where the clock tells nothing
    /// they have.
    fn and(&mut self, more: u64, now: Option<Duration>, seconds: u64) -> Option<u64> {
        self.count = self.count.saturating_add(more);
        let is_early = match (self.at, now) {
            (Some(then), Some(now)) => now.saturating_sub(then) < Duration::from_secs(seconds),
            _ => false,
        };
        if is_early {
            return None;
        }
        self.at = now;
        Some(self.count)
    }
}

/// The cache of a program, which tells what its operator would have to guess.
#[derive(Drop)]
pub struct WatchedCache<R: Clock + Eprint + Drop> {
    rt: R,
    pub files: CacheFiles,
    name: &'static str,
    watch: Watch,
    faults: Telling,
    /// How many tiles weren't given by the last fault.
    unfit: u64,
    /// The bytes of the journal that were read; `None` once something was written.
    opening: Option<Telling>,
}

/// The time now, where the clock tells it.
fn now<R: Clock>(rt: &R) -> Option<Duration> {
    rt.monotonic().ok()
}

impl<R: Clock + Eprint + Drop> WatchedCache<R> {
    /// Watches the cache of this name.
    pub fn new(rt: R, files: CacheFiles, name: &'static str, watch: Watch) -> WatchedCache<R> {
        let opening = if watch.opening {
            Some(Telling::since(now(&rt)))
        } else {
            None
        };
        WatchedCache {
            rt,
            files,
            name,
            watch,
            faults: Telling::since(None),
            unfit: 0,
            opening,
        }
    }

    /// The call of the cache's file that failed last, and what the system said of it.
    pub fn last_fault(&self) -> Option<FileFault> {
        self.files.disk.last_fault()
    }

    /// Tells a fault, with how many there were since the one that was told before. A standard error that takes nothing changes nothing.
    fn tell_fault(&mut self, count: u64)
        ensures { self.new.files ≡ self.old.files }
    {
        let name = self.name;
        let is_unfit = self.files.unfit > self.unfit;
        self.unfit = self.files.unfit;
        let _ = match self.last_fault() {
            Some(fault) if !is_unfit => {
                eprintln!(&self.rt; "disk fault: {name}: {fault}, {count} since the last line")
            }
            _ => eprintln!(&self.rt;
                "unfit: {name}: a kept tile was not what had been written, or had no sum, {count} since the last line"
            ),
        };
    }

    /// Notes how a call ended.
    fn note(&mut self, done: Result<(), Failed>) -> Result<(), Failed>
        ensures same { result ≡ done }
        ensures files { self.new.files ≡ self.old.files }
    {
        if self.watch.faults && done.is_err() {
            let now = now(&self.rt);
            if let Some(count) = self.faults.and(1, now, BETWEEN_FAULTS) {
                self.faults.count = 0;
                self.tell_fault(count);
            }
        }
        done
    }

    /// Notes a read of the journal.
    fn note_read(&mut self, bytes: usize)
        ensures { self.new.files ≡ self.old.files }
    {
        let now = now(&self.rt);
        let Some(opening) = &mut self.opening else {
            return;
        };
        if let Some(read) = opening.and(bytes as u64, now, BETWEEN_LINES) {
            let (name, read) = (self.name, read / 1_000_000);
            let _ = eprintln!(&self.rt; "{name}: opening, {read} MB of the journal read");
        }
    }
}

impl<R: Clock + Eprint + Drop> Disk for WatchedCache<R> {
    ghost told = { λ _. false };

    ghost state = { λ _. silent };

    ghost faults = { λ w. w.files.faults };

    ghost lawful = { λ _ told. absurd (false≢true told) };

    fn read(&mut self, at: u64, into: &mut [u8]) -> Result<(), Failed> {
        let bytes = into.len();
        let done = self.files.read(at, into);
        self.note_read(bytes);
        self.note(done)
    }

    fn read_of(&mut self, part: BlobPart, at: u64, into: &mut [u8]) -> Result<(), Failed> {
        let done = self.files.read_of(part, at, into);
        self.note(done)
    }

    fn write_at(&mut self, at: u64, bytes: &[u8]) -> Result<(), Failed> {
        self.opening = None;
        let done = self.files.write_at(at, bytes);
        self.note(done)
    }

    fn write_of(
        &mut self,
        part: BlobPart,
        piece: u32,
        at: u64,
        bytes: &[u8],
    ) -> Result<(), Failed> {
        let done = self.files.write_of(part, piece, at, bytes);
        self.note(done)
    }

    fn cut(&mut self, length: u64) -> Result<(), Failed> {
        let done = self.files.cut(length);
        self.note(done)
    }

    fn sync(&mut self) -> Result<(), Failed> {
        let done = self.files.sync();
        self.note(done)
    }

    fn fault_count(&self) -> u64 {
        self.files.fault_count()
    }
}
