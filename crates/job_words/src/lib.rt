//! The word `job` on the cache of a disk: a seed, a reseed or a truncation, run place by place in this thread.
//!
//! Promises: each place of the job is visited once, in order, and what a visit comes to is fixed but for what happens there by chance
//! (`specs/Run.antt`, `specs/Visit.antt`); each end of the word has its cause, and the number of places that were rendered and could not be
//! kept (`specs/Ends.antt`); at every moment of it a crash leaves a cache that answers for every truncation that was in force, and at its
//! end for the cut that it counts as done.
//! Stands on job_forms for jobs and their places, on job_places for what is done at one, on cache_core, in whose events a visit is told, on
//! opened_cache, by which it opens the cache, saves the uses of what is kept and closes it, and on command_status for how the word ends.
#![tactic(auto)]

mod input;
mod job_end;
mod running;
mod text;
mod word;

pub use job_end::JobEnd;
pub use running::run_places;
pub use word::run_job;
