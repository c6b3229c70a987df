//! Blobs on a disk, as they are kept behind a journal. A place counts from the start of the disk, in bytes.
//!
//! Promises: after `Ok` of `put` each image of the disk has the blob at its place, and nothing else is other than before;
//! while it runs no byte below the old end changes outside of the blob's range. `read_tile` gives a part of what was put.
//! Stands on disk_model, metatile_plan and base.
#![tactic(auto)]

mod putting;
mod reading;

pub use putting::put;
pub use reading::read_tile;
