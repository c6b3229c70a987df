//! A journal of records behind gate bytes, in two halves.
//!
//! Promises: `Journal::open` gives the records that a disk opens to and their version, 1 or 2, or says what it is instead
//! (`specs/Opened.antt`), and `Journal::open_in_pieces` shows them to a visitor, once and in order (`specs/Visiting.antt`). At every
//! moment within `append` and `compact` each image opens to the records from before the call or to those that it is to lead
//! to, and within `settle` to the records or to what the undecided gate gives; nothing past the journal changes
//! (`specs/Calls.antt`). After `Ok` of one of them each image of the disk opens to the journal's records (`laws_of_journals`).
//! Stands on disk_model and base.
#![tactic(auto)]

mod collecting;
mod fault;
mod half;
mod half_in_force;
mod header;
mod journal;
mod laws;
mod making;
mod opened;
mod pieces;
mod reading;
mod standing;
mod visit;
mod visiting;
mod writes;

pub use fault::OpenFault;
pub use journal::Journal;
pub use laws::laws_of_journals;
pub use making::make;
pub use opened::Opened;
pub use visit::Visit;
