//! Requests for tiles as single events over a cabinet: ask, render, finish.
//!
//! Promises: each event is that of `specs/Steps.antt`; an actor that fits its request stays fitting; where the source
//! is modelled, what an actor holds and answers is the picture of its number; the source has failed only where its count
//! rose. `paint` and `blob_of` render a blob that is cut out of an image that the source gave for the ticket, whatever the source
//! (`specs/Given.antt`). Stands on cabinet, source_render and ppm_slice.
#![tactic(auto)]

mod actor;
mod laws;
mod outcome;
mod render;
mod steps;

pub use actor::{Actor, Step};
pub use laws::{laws_of_finishes, laws_of_lasting};
pub use outcome::{Tile, TileOutcome};
pub use render::{RenderFault, Sliced, blob_of, paint};
pub use steps::{advance, begin, give_up};
