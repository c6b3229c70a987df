//! A turnstile: one value behind one atomic word, which passes take in turn.
//!
//! A `Chest` is a value with a book of truncations, which commands change: a cache, or a board of jobs. A `Turnstile`
//! keeps it in one slot, and whoever has a `Pass` takes it out, does one command and puts it back, from any thread.
//! Promises, for every chest: each turn is one command on the one chest, whose book answers for all that the pass had
//! seen; the pass has then seen what the turn left, and its list gained one note. After `meet` both passes have a book
//! that answers for both. `close` gives the chest back once all passes are returned.
//! Stands on truncation_list (books), base (data for contracts, and for those that wait) and atomic_table (the atomic steps).
#![tactic(auto)]

mod chest;
mod deal;
mod pass;
mod start;
mod steps;
mod turn_queue;
mod turnstile;
mod view;
mod waiting;

pub use chest::Chest;
pub use pass::Pass;
pub use turnstile::{Entry, Turnstile};
pub use view::{Known, Lodged, Made, OneChest, Opening, TurnStage, View};
