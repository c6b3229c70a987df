//! A cabinet on a disk: its commands are durable before they count, and it comes back whole after a crash at any moment.
//!
//! Promises: each command is its row of the cabinet's commands, with a fault of the disk told only where the disk's count of faults
//! rose. At every moment of a command each image of the disk opens to what was kept before it or is kept after it, or to what an
//! undecided record of one that failed would have made, and to a book that answers for the one before (`specs/Images.antt`).
//! `Cabinet::open` restores what the records come to, or says which is the first that no cache has. The texts of the tiles that were
//! read lately stay in memory (`specs/Hot.antt`): an ask that they serve answers as one that reads the disk.
//! Stands on cabinet and cache_file, and on the crates of their types.
#![tactic(auto)]

mod asking;
mod backing;
mod beginning;
mod disk_cabinet;
mod draft;
mod entering;
mod entries;
mod hot;
mod keeping;
mod parts;
mod reading;
mod replaying;
mod rooms;
mod texts;

pub use disk_cabinet::{Cabinet, make};
pub use parts::Parts;
pub use replaying::{replay, slots_for};
