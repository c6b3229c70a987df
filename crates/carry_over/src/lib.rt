//! The cache of one catalogue, taken over under another one.
//!
//! Promises: after `carry` each image of the new disk opens under the new catalogue to what was chosen of the old cache, and has the bytes that the old disk
//! has: each kept metatile that the change leaves alone, under its number, with its region, its moment and its saved uses, but those that are counted as left
//! out; and a book that answers for each truncation in force that is of the new catalogue (`specs/Taken.antt`, `specs/Chosen.antt`). Each end has its cause, and
//! the old disk is only read. What is taken over is an opening with which the histories of a cabinet may begin (`laws_of_carries`).
//! Stands on catalogue_change, durable_cabinet and the crates of their types.
#![tactic(auto)]

mod bodies;
mod carrying;
mod choosing;
mod copying;
mod fault;
mod laws;
mod making;
mod planning;
mod reading;
mod writing;

pub use carrying::{Carried, CarryEnd, carry};
pub use fault::CarryFault;
pub use laws::laws_of_carries;
