//! The lines of a twin: each orders an event of a lossy link between a leader and a follower that stand in one place, and is answered.
//!
//! Promises: a line gives an order exactly where it is of one of the forms (`specs/Orders.antt`); what became of it is told by its text
//! (`specs/Texts.antt`). `run_lines` runs lines until one orders a stop, or to the end (`specs/Ends.antt`): what happened is a list of
//! steps (`specs/Steps.antt`), of which each comes by the events of its line, one behind the other, whatever lossy link stands as the twin
//! did; the lines order these steps one by one, and what went out is their texts. Behind a line that is no event, one whose answer was
//! cut short, or one in which memory ran out, nothing happens. At every moment an image of the marks ends in a mark of a stand along the
//! steps, one of the outbox opens to posts along them, and what a crash leaves of the cabinet answers for each truncation that was in force.
//! Stands on twin_events, whose calls it makes, on wmts_kvp and job_forms for queries and covers, on tile_service and tile_requests for
//! lines and small texts, and on the crates whose types its calls name.
#![tactic(auto)]

mod line;
mod line_end;
mod lines;
mod order;
mod orders;
mod text;

pub use line_end::TwinLineEnd;
pub use lines::{Halt, run_lines};
pub use order::{LinkSide, TwinOrder};
pub use orders::UnreadTwinOrder;
pub use text::tell_stopped;
