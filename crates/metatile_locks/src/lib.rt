//! The renders that run, and the tickets for them.
//!
//! Promises: of the renders of one metatile at most one is not overtaken; a render is marked exactly where a truncation
//! that came after its start hits it; a ticket is made by `Locks::begin` alone (`specs/Running.antt`, `specs/Calls.antt`).
//! Stands on truncation_list, metatile_plan, catalog and matrix_geometry.
#![tactic(auto)]

mod aim;
mod hitting;
mod laws;
mod locks;
mod reach_of_cover;
mod render;
mod replies;
mod table;
mod ticket;

pub use aim::Aim;
pub use hitting::hits_in;
pub use laws::laws_of_reach;
pub use locks::Locks;
pub use reach_of_cover::{is_reached, reach};
pub use render::Render;
pub use replies::{Begin, End};
pub use ticket::Ticket;
