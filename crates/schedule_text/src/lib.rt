//! The lines of a schedule: who acts, with which verb, and on what.
//!
//! Promises: `read_line` gives the line that a text spells, or its first fault (`specs/Line.antt`).
//! Stands on metatile_plan, for its spans.
#![tactic(auto)]

mod line;
mod verb;

pub use line::{LINE_LIMIT, Line, LineFault, digits_len, read_line};
pub use verb::{Verb, verb_of};
