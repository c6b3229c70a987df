//! A disk: what a read gives, and what a crash may leave.
//!
//! Between two syncs each written range, and the part past the old end, may hold any bytes after a crash; all other bytes
//! stay. After a sync that succeeds, a crash leaves exactly what a read gives. `specs/Images.antt` has the words in which
//! the contracts of all crates above say what each moment of a call may leave.
//! Promises: `MemoryDisk` is such a disk, and `crash` leaves one of its images; `write_through` and `write_through_of` change nothing
//! but their range, at every moment. `FileDisk`, over a real file, isn't modelled: it is trusted, and only tested.
//! Stands on base.
#![tactic(auto)]

mod attempt;
mod blob_part;
mod bytes;
mod disk;
mod file;
mod file_fault;
mod log;
mod make;
mod memory;
mod pick;
mod through;

pub use blob_part::BlobPart;
pub use disk::{Disk, Failed};
pub use file::FileDisk;
pub use file_fault::{FileCall, FileFault};
pub use memory::MemoryDisk;
pub use pick::Pick;
pub use through::{write_through, write_through_of};
