//! The drill: a schedule that a number makes by draws, run as it is made, with a summary of its answers.
//!
//! Promises: the lines are those that the number makes (`specs/Made.antt`), none of them is refused, and their run is that of a
//! schedule of these lines. The summary counts the answers of the run and has the SHA-256 of what that run writes
//! (`specs/Drill.antt`).
//! Stands on tile_service, whose lines it runs, and on sha2 and hex.
#![tactic(auto)]

mod digest_sink;
mod draws;
mod drill;
mod drill_lines;
mod drill_run;
mod summary;

pub use drill::{DrillEnd, run_drill};
