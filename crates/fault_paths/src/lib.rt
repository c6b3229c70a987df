//! The places in a catalogue's text that a fault of it can mean, as paths.
//!
//! Promises: a fault names a member and where its object stands in its list; `fault_paths` tells each path of the text where that member can be
//! at fault so, a line a path, and no other (`specs/Paths.antt`). `unknown_members` tells each member that no object of a catalogue has
//! (`specs/Unknown.antt`).
//! Stands on catalog for the faults, on json_forms for lists, and on serde_json.
#![tactic(auto)]

mod fields;
mod fitting;
mod known;
mod lines;
mod paths;
mod sought;
mod unknown;

pub use fields::Owner;
pub use fitting::Mistake;
pub use paths::fault_paths;
pub use sought::Sought;
pub use unknown::unknown_members;
