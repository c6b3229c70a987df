//! The three disks of a step: that of the cache, that of a feed's marks, and that of an outbox.
use crate::fakes::Fakes;
use disk_model::{Disk, Pick};
use fixtures::SilentDisk;
use std::alloc::{AllocError, Global};

/// The bytes of the three disks.
#[derive(Drop)]
pub struct Contents {
    pub cache: Vec<u8>,
    pub marks: Vec<u8>,
    pub outbox: Vec<u8>,
}

/// The three disks.
#[derive(Drop)]
pub struct Disks {
    pub cache: SilentDisk,
    pub marks: SilentDisk,
    pub outbox: SilentDisk,
}

/// What a crash leaves of each disk; where there is none, what a read gives is left.
#[derive(Clone, Copy)]
pub struct Crashes {
    pub cache: Option<Pick>,
    pub marks: Option<Pick>,
    pub outbox: Option<Pick>,
}

impl Crashes {
    /// A crash of this kind of each.
    pub fn all(pick: Pick) -> Crashes {
        Crashes {
            cache: Some(pick),
            marks: Some(pick),
            outbox: Some(pick),
        }
    }
}

/// The bytes that one disk is left with.
fn left_of(alloc: Global, disk: SilentDisk, crash: Option<Pick>) -> Result<Vec<u8>, AllocError> {
    match crash {
        Some(pick) => disk.left(alloc, pick),
        None => Vec::from_slice(alloc, disk.bytes()),
    }
}

impl Disks {
    /// Disks of these bytes that behave as these fakes say.
    pub fn faked(alloc: Global, fakes: &Fakes, contents: &Contents) -> Result<Disks, AllocError> {
        Ok(Disks {
            cache: fakes.disk.over(alloc, contents.cache.as_slice())?,
            marks: fakes.marks.over(alloc, contents.marks.as_slice())?,
            outbox: fakes.outbox.over(alloc, contents.outbox.as_slice())?,
        })
    }

    /// Disks of these bytes that never fail.
    pub fn of(alloc: Global, contents: Contents) -> Disks {
        let Contents {
            cache,
            marks,
            outbox,
        } = contents;
        Disks {
            cache: SilentDisk::new(alloc, cache, Vec::new(alloc)),
            marks: SilentDisk::new(alloc, marks, Vec::new(alloc)),
            outbox: SilentDisk::new(alloc, outbox, Vec::new(alloc)),
        }
    }

    /// Whether a call of the marks failed.
    pub fn marks_failed(&self) -> bool {
        self.marks.fault_count() > 0
    }

    /// Whether a call of the outbox failed.
    pub fn outbox_failed(&self) -> bool {
        self.outbox.fault_count() > 0
    }

    /// Whether a call of any failed.
    pub fn have_failed(&self) -> bool {
        self.cache.fault_count() > 0 || self.marks_failed() || self.outbox_failed()
    }

    /// The bytes that each is left with.
    pub fn left(self, alloc: Global, crashes: Crashes) -> Result<Contents, AllocError> {
        let Disks {
            cache,
            marks,
            outbox,
        } = self;
        Ok(Contents {
            cache: left_of(alloc, cache, crashes.cache)?,
            marks: left_of(alloc, marks, crashes.marks)?,
            outbox: left_of(alloc, outbox, crashes.outbox)?,
        })
    }
}
