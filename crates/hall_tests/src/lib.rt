//! Tests of a hall: passes that get, truncate and meet, one after the other and in threads, and
//! sessions: one with a board of jobs, some whose source, link or disk fails at one call after the other, and one over a cabinet
//! alone, whose link notes the order of its takes and puts. And of jobs that are run by crews over a hall: jobs of a board, crews in
//! threads, and members that rest while requests are served.
//!
//! It has no code of its own and promises nothing: what the crates promise is proved in each of them.
//! Stands on cache_hall, hall_sessions, durable_cabinet, seed_jobs and fixtures, and on the crates of what they are called
//! with.
#![tactic(auto)]

#[cfg(test)]
mod boards;
#[cfg(test)]
mod crews;
#[cfg(test)]
mod faults;
#[cfg(test)]
mod held;
#[cfg(test)]
mod job_messages;
#[cfg(test)]
mod meeting;
#[cfg(test)]
mod moments;
#[cfg(test)]
mod on_disk;
#[cfg(test)]
mod order;
#[cfg(test)]
mod pair;
#[cfg(test)]
mod passes;
#[cfg(test)]
mod rests;
#[cfg(test)]
mod stage;
#[cfg(test)]
mod texts;
#[cfg(test)]
mod visit;
