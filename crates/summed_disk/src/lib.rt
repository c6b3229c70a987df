//! A disk that gives no byte of a blob but those that were written: beside it, in a second file, stands a sum for each encoded tile.
//!
//! The sum goes with the tile's bytes, with the number of the render that they are of, and with their place in its blob (`specs/Sum.antt`).
//! So a tile that was changed, that was lost with the end of the file, or in place of which another render was written, is a failed read. A
//! file of sums is never waited for: what a crash or a copy leaves of it decides only whether a read fails.
//! Promises: `SummedDisk::read_of` gives what goes with its sum, or fails; it fails only where the sum isn't that of the bytes, or a count of
//! faults rose below it (`fits`, `refused`). `write_of` writes the sum of each tile, and no other (`sums`). All else is as on the disk
//! without sums. `laws_of_sums` says that no change within one word of eight bytes keeps the sum. `read_sum` and `write_sum` are for those who
//! look after the sums themselves.
//! Stands on disk_model and base, and on byteorder for numbers.
#![tactic(auto)]

mod entries;
mod laws;
mod sum;
mod summed;

pub use entries::{read_sum, write_sum};
pub use laws::laws_of_sums;
pub use sum::part_sum;
pub use summed::SummedDisk;
