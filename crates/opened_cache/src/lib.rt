//! The cache of a disk, opened for one word of a command and left again: what the word sees of its disk and of its output, how its
//! input is read, and how uses are saved and texts written at its end.
//!
//! Promises: a cabinet that is opened begins with what the disk's content comes to, and one that isn't has its cause (`specs/Opened.antt`);
//! at every moment of the opening a crash leaves a cache that answers for every truncation that was in force, and once it is closed for all
//! that the cabinet answers for (`specs/Crash.antt`); uses are saved until all are or the disk fails (`specs/Saving.antt`); an
//! input is read whole, or the status tells why not (`specs/Inputs.antt`).
//! Stands on durable_cabinet, whose cabinet it opens, on cache_access, by which it saves uses, on gate_journal, whose faults it hands on, on
//! command_status for how a word ends, on tile_requests for small texts, and on the crates whose types its calls name.
#![tactic(auto)]

mod input;
mod lent;
mod lent_cabinet;
mod opening;
mod saving;
mod writing;

pub use input::text_in;
pub use lent::{LentDisk, Loan};
pub use lent_cabinet::{LentCabinet, leaves_now};
pub use opening::{close_cache, open_cache};
pub use saving::save_all;
pub use writing::{number_text, write_text};
