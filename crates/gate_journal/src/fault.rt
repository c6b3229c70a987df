//! Why a cache isn't opened.
ghost use Rattle.std.specs.Prelude.{◌≡◌};
ghost use Rattle.gate_journal.specs.declared.fault.OpenFault.TheVariants.{DiskFault, OutOfMemory};

use disk_model::Failed;
use std::alloc::{AllocError, AllocFailed};

/// Why a cache isn't opened.
#[derive(Clone, Copy, Debug, PartialEq, Eq, Drop)]
pub enum OpenFault {
    /// No header counts, or an open gate stands after a closed one.
    NotACache,
    /// The digest that the cache was made with, and the one that was asked for.
    CatalogueDiffers([u8; 32], [u8; 32]),
    /// The record in this slot of the half, counted from 0, is refused.
    BadRecord(u64),
    /// No opening number is left.
    Spent,
    DiskFault,
    OutOfMemory,
}

impl From<Failed> for OpenFault {
    ghost from_gives = { λ _ fault. fault ≡ DiskFault };

    fn from(_: Failed) -> Self {
        OpenFault::DiskFault
    }
}

impl From<AllocError> for OpenFault {
    ghost from_gives = { λ _ fault. fault ≡ OutOfMemory };

    fn from(_: AllocError) -> Self {
        OpenFault::OutOfMemory
    }
}
