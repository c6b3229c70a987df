//! What the records of a journal say of a cabinet.
//!
//! Promises: a replay of the records of a journal restores what they come to, or tells the first one that no cache has
//! (`specs/Replay.antt`). Records that the commands of a cabinet wrote come to all that it keeps, and to a book that answers for its
//! own (`specs/Recorded.antt`, `laws_of_records`).
//! Stands on cabinet, gate_journal, record_text and the crates of their types.
#![tactic(auto)]

mod openings;
mod recorded;
mod replay;
mod restored;

pub use openings::laws_of_replays;
pub use recorded::laws_of_records;
pub use replay::Replay;
pub use restored::Restored;
