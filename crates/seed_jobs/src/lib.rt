//! Jobs, run over a hall: the places of one by a crew, and the posted jobs of a board one after the other.
//!
//! `work` lets one hand claim place after place of the job's sheet, refreshes each one's metatile, or makes the one cut, and reports the
//! place done or failed; `run_seed` lets a whole crew do so side by side; `run_jobs` takes posted jobs from a board and runs each by a crew.
//! Promises (`specs/Works.antt`, `specs/Visits.antt`): the pass made the turns of one refresh, or of one truncation, for each place that
//! the hand claimed, in order, and no others; a place counts as done exactly if that call answered no fault; each blob that was handed in is cut out
//! of an image that the worker's source gave for its ticket; the hand has met None.
//! If all hands of a fresh sheet worked and none met None by a cancel, all places were claimed, each once (`specs/Crews.antt`).
//! Of the runner (`specs/Runs.antt`): each job that it took at the board was run, before the next one was taken, by a crew that got all
//! hands of the job's sheet, and the board was told of its end with all that the crew came to, or it couldn't be run over this catalogue and
//! was left; between two jobs no member does anything; it returns only if its last look found no job waiting, on a board with all jobs of
//! which it knew. That it rests while requests are served, or that it goes on, no clause says.
//! Stands on cache_hall, job_forms and job_board, and on base, by whose `Traffic` the runner looks for requests.
#![tactic(auto)]

mod crew;
mod crews;
mod gate;
mod gates;
mod gathering;
mod member;
mod members;
mod pacing;
mod reporting;
mod runner;
mod running;
mod totals;
mod visiting;
mod worker;

pub use crew::{CrewEnd, run_seed};
pub use gate::{Gate, OpenGate};
pub use gates::JobGate;
pub use member::Member;
pub use members::idle_members;
pub use pacing::{Pace, PacedGate};
pub use runner::{IdleMember, MEMBERS, Runner};
pub use running::run_jobs;
pub use worker::work;
