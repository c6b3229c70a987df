//! What a command works with, made ready: the catalogue and the capabilities document are read, and a cabinet in memory is made.
//!
//! Promises: what was read is what the inputs hold, whole and within its limit, and each refusal has its cause (`specs/Setup.antt`)
//! and its status (`specs/Refusals.antt`).
//! Stands on config_text, tile_service, cabinet and http_wire, on durable_cabinet for what the disk of a cache holds (`specs/Held.antt`), on
//! command_status, and on the crates whose types its calls name.
#![tactic(auto)]

mod configuration;
mod description;
mod preparation;
mod refusals;

pub use configuration::{CATALOGUE_LIMIT, Unconfigured, read_configuration, source_number};
pub use description::read_description;
pub use preparation::{both_read, prepare};
pub use refusals::status_of_refusal;
