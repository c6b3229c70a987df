//! The links of a listener, served by many workers over one hall, and the jobs that their messages submit, run beside them.
//!
//! Promises: at the end of `serve_hall` each link that the listener gave was served in one session, by a pass of one turnstile that had
//! made nothing before, and from a place at one board of jobs; each job that was taken from that board was run over the hall, and at the
//! end none waits there of all that the sessions submitted, since each of these was cancelled (`specs/Cancelled.antt`); one pass kept the
//! cache up meanwhile, and did nothing else (`specs/Upkept.antt`); the turns of all of them stand in one line, and a tile that was asked
//! for in a later turn than a truncation is newer than it; `Done` comes only where as many links were given as were asked for
//! (`specs/Served.antt`, `specs/Stints.antt`, `specs/Runners.antt`, `specs/Between.antt`). Where threads can't be made it ends before the
//! first link, with `NoThreads`. What a session is, hall_sessions says, and what the run of a job is, seed_jobs. That a thread gets on, a
//! link is served soon, or jobs are cancelled as soon as the last link was served, no clause says.
//! Stands on hall_sessions, seed_jobs, cache_hall, job_board, link_queue and http_wire, and on the crates whose types its calls name;
//! where a cabinet keeps its metatiles it doesn't know.
#![tactic(auto)]

mod cancelling;
mod crew;
mod crossing;
mod ending;
mod ends;
mod gates;
mod roll_call;
mod service;
mod serving;
mod stage;
mod upkeep;
mod workers;

pub use ends::ServiceEnd;
pub use service::serve_hall;
pub use stage::{BOARD_PASSES, PASSES, ReadyServer, SOURCES, stage_of};
