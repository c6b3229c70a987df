//! How a command ended, and how the operator is told: a code of the process and a line. And the status of each end of the work, and of each
//! refusal before it.
//!
//! Promises: an end, or a refusal, is told by the status that stands beside it in `specs/Statuses.antt`. Which status comes when, the crates of the
//! words say; no clause says which code and which line tell it.
//! Stands on the crates whose faults a status hands on, and on those whose ends it tells: catalog, gate_journal, http_wire, job_forms
//! and tile_service.
#![tactic(auto)]

mod status;
mod statuses;

pub use status::Status;
pub use statuses::{
    status_of_form, status_of_input, status_of_opening, status_of_schedule, status_of_session,
};
