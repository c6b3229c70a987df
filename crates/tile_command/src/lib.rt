//! The commands of `tile_server`: what its words ask for, done over streams, a source and a disk that are handed in.
//!
//! Promises: `run_command` does what its words say, and each of its statuses has its cause (`Commands`, `specs/Command.antt`); at every
//! moment of every word but `make` a crash leaves all truncations that were in force, and after it those that were acknowledged too. It
//! stands in a library, so that the program, the worked cases and tests call the same function.
//! Stands on command_setup, command_status, command_words, tile_service, tile_drill, disk_words and job_words, and on the crates whose types
//! its calls name.
#![tactic(auto)]

mod command;
mod command_end;
mod job;
mod kept;
mod memory;
mod upkeep;

pub use command::run_command;
pub use command_end::CommandEnd;
