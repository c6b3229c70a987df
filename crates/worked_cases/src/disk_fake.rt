//! How the disk of a step behaves, as the lines of a step's file `fakes` say.
use disk_model::Pick;
use fixtures::SilentDisk;
use std::alloc::{AllocError, Global};

/// How a disk behaves, and what of it is left to the next step.
#[derive(Drop)]
pub struct DiskFake {
    /// The calls that fail, counted from 1.
    fails: Vec<u64>,
    /// After so many calls each one fails.
    stops: u64,
    /// Whether each run of a table of stops fails one call alone, in place of that one and all behind it.
    pub alone: bool,
    /// What a crash behind the run leaves; where there is none, what a read gives is left.
    pub crash: Option<Pick>,
    /// How many bytes it has to hold behind the run, where a line says so.
    pub length: Option<u64>,
}

/// What a crash leaves, by its number.
fn pick_of(number: u64) -> Option<Pick> {
    match number {
        0 => Some(Pick::Old),
        1 => Some(Pick::New),
        2 => Some(Pick::Noise),
        _ => None,
    }
}

/// The number that names what a crash leaves.
pub fn number_of(pick: Pick) -> u64 {
    match pick {
        Pick::Old => 0,
        Pick::New => 1,
        Pick::Noise => 2,
    }
}

impl DiskFake {
    /// A disk that never fails, and no crash.
    pub fn new(alloc: Global) -> DiskFake {
        DiskFake {
            fails: Vec::new(alloc),
            stops: u64::MAX,
            alone: false,
            crash: None,
            length: None,
        }
    }

    /// Takes in what a line says of the disk, and tells whether it is one that is known.
    pub fn take_in(&mut self, verb: &str, number: u64) -> Result<bool, AllocError> {
        match verb {
            "fails" => self.fails.push(number)?,
            "stops" => self.stops = number,
            "alone" => self.alone = number > 0,
            "length" => self.length = Some(number),
            "crash" => {
                self.crash = pick_of(number);
                return Ok(self.crash.is_some());
            }
            _ => return Ok(false),
        }
        Ok(true)
    }

    /// A disk of these bytes that behaves so.
    pub fn over(&self, alloc: Global, bytes: &[u8]) -> Result<SilentDisk, AllocError> {
        let fails = Vec::from_slice(alloc, self.fails.as_slice())?;
        let mut disk = SilentDisk::new(alloc, Vec::from_slice(alloc, bytes)?, fails);
        disk.stop_after(self.stops);
        Ok(disk)
    }
}
