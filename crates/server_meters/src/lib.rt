//! What a running server counts, and how it tells its operator: families for `metrics_text`, and whether it is well.
//!
//! Promises nothing: no function here has a clause, and that a count says what it is named for is trusted and shown by tests
//! (`meters_tests`). What is proved is that each call is safe and ends. `FAMILIES.md`, beside this folder, has a row for each family.
//! Each worker counts in a `WorkerMeters` of its own, apart from the others in memory by more than a cache line, so that counting
//! never moves a line between processors; whoever asks for the text adds them up.
//! Stands on metrics_text for the families, and on exact_ratio for the names of layers. Nothing uses it yet.
#![tactic(auto)]

mod counter;
mod durations;
mod families;
mod health;
mod kinds;
mod meters;
mod requests;
mod samples;
mod tally;
mod worker;

pub use counter::Counter;
pub use durations::{DurationTally, Durations};
pub use health::Health;
pub use kinds::{Levels, MeteredFault, Outcome};
pub use meters::Meters;
pub use requests::OutcomeTally;
pub use tally::Tally;
pub use worker::WorkerMeters;
