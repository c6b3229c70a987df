//! Requests: what a message asks for, what that comes to in the cabinet, and the response to it.
//!
//! Promises: a message is led by the table of paths (`specs/Routes.antt`); the events of a request for a tile in one line are
//! those of its mode, and a truncation, an expiry and what is kept are those of the cabinet (`specs/Requests.antt`,
//! `specs/Texts.antt`); each outcome has its response (`specs/Response.antt`), whose head takes no memory; a tile is spelt there as
//! the path asks, as the pixmap that it is or as PNG. What a thread that has a cabinet
//! for itself gets or refreshes by cache_access is the run of those events (`laws`).
//! Stands on png_text and tile_png, cabinet, cache_core, cache_access, source_render, job_forms, exception_report, wmts_kvp, wmts_rest and http_wire.
#![tactic(auto)]

mod answering;
mod at_once;
mod dropped;
mod laws;
mod message_ref;
mod numbers;
mod outcome;
mod parts;
mod request;
mod request_events;
mod response;
mod response_head;
mod routes;
mod small_text;
mod spelling;
mod tables;
mod usage;

pub use answering::answer;
pub use at_once::immediate;
pub use dropped::dropped_text;
pub use laws::laws_of_lone_threads;
pub use message_ref::MessageRef;
pub use numbers::push_number;
pub use outcome::{Outcome, Plain};
pub use parts::{Body, BodyHeaders, LentResponse, MediaType, TileHeaders};
pub use request::{Mode, Request, outcome_of, outcome_of_get};
pub use request_events::events;
pub use response::{bare, parts_of};
pub use response_head::head;
pub use routes::{path_of, read_request, spelling_at};
pub use small_text::{add, add_number, send_behind};
pub use spelling::Spelling;
pub use tables::Tables;
pub use usage::usage_text;
