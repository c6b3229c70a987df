//! What the words of a command do on the cache of a disk: they open it, work on it by the trait of a cabinet, close it, and tell how that
//! ended; one makes it.
//!
//! Promises: each end of a word has its cause (`specs/Ends.antt`, `specs/Runs.antt`); at every moment of each word but the making a crash
//! leaves a cache that answers for every truncation that was in force, and at its end for all that the cabinet answers for
//! (opened_cache, `specs/Crash.antt`).
//! Stands on opened_cache, by which it opens the cache, saves the uses of what is kept and closes it, on durable_cabinet, by which it makes
//! one, on tile_service, whose schedules and sessions it runs, on job_forms for covers, on command_status for how a word ends, and on the
//! crates whose types its calls name.
#![tactic(auto)]

mod cover_input;
mod expire_word;
mod making;
mod replay_word;
mod schedule_word;
mod truncate_word;
mod usage_word;

pub use cover_input::cover_in;
pub use expire_word::expire;
pub use making::make;
pub use replay_word::replay;
pub use schedule_word::schedule;
pub use truncate_word::truncate;
pub use usage_word::usage;
