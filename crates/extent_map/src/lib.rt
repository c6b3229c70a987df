//! The parts of a space of bytes that are taken, and the search for a hole.
//!
//! Promises: the taken parts are in order and no byte lies in two; `Extents::take` takes the lowest place at which the
//! bytes are free, and answers `None` exactly where there is none; `claim_at` takes a part exactly where it is free;
//! `give` takes that one part out. What takes or gives a part asks for no memory.
//! The parts lie in chunks of at most 1,024, each with a summary of its holes, so that neither a search nor a change goes
//! through all of them.
//! Stands on nothing.
#![tactic(auto)]

mod chunk;
mod chunks;
mod edits;
mod extents;
mod gaps;
mod holes;
mod part;

pub use extents::Extents;
pub use part::{Extent, ExtentSpot, FoundHole, Hole, Summary};
