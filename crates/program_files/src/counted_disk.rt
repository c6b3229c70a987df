//! A disk that tells on standard error how much was read of its tiles.
ghost use Rattle.std.specs.Prelude.{◌≡◌};

use disk_model::{BlobPart, Disk, Failed};
use std::io::Eprint;
use std::time::{Clock, Duration};

/// How many seconds nothing further is told.
const BETWEEN_LINES: u64 = 1;

/// A disk of which the bytes of tiles that are read are counted, and told every second.
#[derive(Drop)]
pub struct CountedDisk<R: Clock + Eprint + Drop, D: Disk> {
    rt: R,
    pub disk: D,
    /// How many bytes the disk has; `None` if nothing is to be told.
    size: Option<u64>,
    read: u64,
    began: Option<Duration>,
    told: Option<Duration>,
}

impl<R: Clock + Eprint + Drop, D: Disk> CountedDisk<R, D> {
    /// Counts what is read of a disk of so many bytes; if there is no number of bytes, nothing is told.
    pub fn new(rt: R, disk: D, size: Option<u64>) -> CountedDisk<R, D>
        ensures { result.disk ≡ disk }
    {
        let began = rt.monotonic().ok();
        CountedDisk {
            rt,
            disk,
            size,
            read: 0,
            began,
            told: began,
        }
    }

    /// Counts a read, and tells how much was read, unless that was told within the last second.
    fn note(&mut self, bytes: usize)
        ensures { self.new.disk ≡ self.old.disk }
    {
        let Some(size) = self.size else {
            return;
        };
        self.read = self.read.saturating_add(bytes as u64);
        let (Some(began), Some(told), Ok(now)) = (self.began, self.told, self.rt.monotonic()) else {
            return;
        };
        if now.saturating_sub(told) < Duration::from_secs(BETWEEN_LINES) {
            return;
        }
        self.told = Some(now);
        let (read, size) = (self.read / 1_000_000, size / 1_000_000);
        let seconds = now.saturating_sub(began).as_secs();
        let _ = eprintln!(&self.rt; "read {read} of at most {size} MB, {seconds} s");
    }
}

impl<R: Clock + Eprint + Drop, D: Disk> Disk for CountedDisk<R, D> {
    ghost told = { λ c. D.told c.disk };

    ghost state = { λ c. D.state c.disk };

    ghost faults = { λ c. D.faults c.disk };

    ghost lawful = { λ c told. D.lawful c.disk told };

    fn read(&mut self, at: u64, into: &mut [u8]) -> Result<(), Failed> {
        self.disk.read(at, into)
    }

    fn read_of(&mut self, part: BlobPart, at: u64, into: &mut [u8]) -> Result<(), Failed> {
        let bytes = into.len();
        let done = self.disk.read_of(part, at, into);
        self.note(bytes);
        done
    }

    fn write_at(&mut self, at: u64, bytes: &[u8]) -> Result<(), Failed> {
        self.disk.write_at(at, bytes)
    }

    fn write_of(
        &mut self,
        part: BlobPart,
        piece: u32,
        at: u64,
        bytes: &[u8],
    ) -> Result<(), Failed> {
        self.disk.write_of(part, piece, at, bytes)
    }

    fn cut(&mut self, length: u64) -> Result<(), Failed> {
        self.disk.cut(length)
    }

    fn sync(&mut self) -> Result<(), Failed> {
        self.disk.sync()
    }

    fn fault_count(&self) -> u64 {
        self.disk.fault_count()
    }
}
