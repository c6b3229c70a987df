//! Words that look at a cache and change nothing: `check` tells what a start would refuse, `list` what is kept, and `job --dry-run` how large
//! a job is.
//!
//! Promises: each end of a word has its cause (`specs/Checks.antt`, `specs/Lists.antt`, `specs/DryRuns.antt`). The records of the cache are
//! replayed and no cabinet is opened, so that no number of an opening is spent: each image of the disk is one of those from before
//! (`specs/Looks.antt`).
//! Stands on durable_cabinet, whose replay it calls, on opened_cache for disks that are lent and for texts that are written, on command_setup
//! for the files, on command_status for how a word ends, on kept_lines and job_sizes for what is told, and on the crates whose types its calls
//! name.
#![tactic(auto)]

mod check;
mod check_text;
mod dry_run;
mod list;
mod listing;
mod looking;
mod words;

pub use check::run_check;
pub use dry_run::run_dry_run;
pub use list::run_list;
pub use looking::look;
