//! The sums of the tiles of a cache, written for what stands on its disk.
//!
//! Promises: after `seal` each tile that the records of the disk keep has the sum of the bytes which a read of the disk gives, but those that weren't read,
//! and those of which another sum stands there, unless sums are made anew; no other sum is written, all of it is durable, and each tile is counted by what
//! became of its sum (`specs/Seals.antt`, `specs/Ends.antt`); each tile that is told as unread has a fault of its own, of the disk or of the sums
//! (`specs/Unread.antt`). The disk is only read and synced, at each moment. Each fault has its cause.
//! Stands on summed_disk for sums, on durable_cabinet, whose replay it calls, on tile_grain for what a grain is, and on the crates of their types.
#![tactic(auto)]

mod counting;
mod fault;
mod judging;
mod sealing;
mod sealing_blob;
mod sealing_kept;
mod tiles;

pub use counting::{Fate, SealTally};
pub use fault::SealFault;
pub use judging::SealRule;
pub use sealing::{SealEnd, seal};
