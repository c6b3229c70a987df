//! Requests for the jobs of a server: where a message leads under `/jobs` and `/board`, what it comes to at the board, and the texts that are
//! told.
//!
//! Promises: `read_job_request` reads exactly the paths `/jobs`, `/board` and those below them, and leaves all others to the table of paths
//! (`specs/Routes.antt`); each text that is told is exact (`specs/Texts.antt`); `serve_job` makes the turns at the board that a
//! request asks for, and no others, and its outcome is what they were answered (`specs/Served.antt`).
//! Stands on job_forms, whose texts bodies have, on job_board, and on tile_requests for messages, paths and outcomes.
#![tactic(auto)]

mod listing;
mod request;
mod routes;
mod serving;
mod texts;

pub use request::JobRequest;
pub use routes::read_job_request;
pub use serving::serve_job;
pub use texts::{progress_text, status_text, submitted_text};
