//! A feed of numbered changes: each is a truncation that a cabinet makes once, in the order of their numbers, whatever is repeated and
//! wherever a run was stopped.
//!
//! Promises: `Feed::apply` answers by its row (`specs/Applies.antt`): a change that was made is not made again, and one behind a gap is
//! not made. The mark of the last change stands in a file of its own. Before a cut is done no image of that file ends in a mark other
//! than those of before the call, and after `Done` each one ends in the mark of the change (`specs/Files.antt`). The same is had in
//! steps, `judge`, `ready`, the cut and `mark`, where the cut is made elsewhere. `laws_of_feeds` says what follows for runs of changes
//! with stops and openings between them (`specs/Runs.antt`).
//! Stands on cache_file, and on cabinet with the crates of its types.
#![tactic(auto)]

mod applied;
mod applying;
mod bodies;
mod change;
mod feed;
mod laws;
mod mark;
mod marking;
mod opening;
mod queries;
mod reader;

pub use applied::{Applied, JudgedChange};
pub use change::Change;
pub use feed::Feed;
pub use laws::{laws_of_feeds, laws_of_marks};
pub use mark::Mark;
