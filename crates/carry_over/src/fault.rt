//! Why a cache isn't taken over.
use gate_journal::OpenFault;

/// Why a copy into the file of the new cache ends early.
#[derive(Clone, Copy, Debug, PartialEq, Eq, Drop)]
pub enum CopyFault {
    /// The new disk failed.
    DiskFault,
    OutOfMemory,
}

/// Why a cache isn't taken over.
#[derive(Clone, Copy, Debug, PartialEq, Eq, Drop)]
pub enum CarryFault {
    /// The old disk is refused as an opening of its cache refuses it.
    Old(OpenFault),
    /// The new disk failed.
    NewDisk,
    /// The new disk, which then isn't modelled, doesn't give back the file that was made there.
    NotMade,
    /// More truncations in force are of the new catalogue than it lets be listed.
    CutsFull,
    OutOfMemory,
}
