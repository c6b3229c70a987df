//! What is done at a place of a job, whoever commands the cache: its metatile is refreshed, or its one cut is made.
//!
//! `visit` is written once, over any access: that of a thread that has a cabinet for itself, as the word `job` runs a job, or that of one
//! among many, as a crew does.
//! Promises (`specs/Visits.antt`): a visit made the turns of one refresh of the place's metatile, by force in a reseed, or that of the one
//! truncation, and no others; the place is done exactly where that answered no fault, and otherwise it is said which one; and it is said where a metatile was
//! rendered and could not be kept. Each blob that a visit hands in is cut out of an image that the source gave for its ticket. A `Tally` counts
//! how places ended.
//! Stands on job_forms and cache_access.
#![tactic(auto)]

mod place;
mod tally;
mod visiting;

pub use place::{PlaceEnd, PlaceFault};
pub use tally::Tally;
pub use visiting::visit;
