//! A leader and a follower in one place, with every packet that was ever sent between them, and what can happen to them.
//!
//! Promises: each call of a `Twin` is an event of a lossy link (`cut_follower`'s `specs/Lossy.antt`): from whichever link stands as the twin
//! did before the call, the event leads to one that stands as it does then (`specs/Twins.antt`). So what `laws_of_lossy_links` says of
//! every list of events holds of every run of calls, in whatever order packets are carried, and however often. A cover is posted, the next
//! post is sent, a packet is carried by its place in the list of what was sent (`specs/Carries.antt`), and a tile is got at the follower
//! (`specs/Gets.antt`).
//! Stands on outbox and cut_follower, whose calls it makes, on change_feed for the marks, on cabinet, cache_core and source_render for
//! tiles, on tile_service for cabinets in which no render runs, and on the crates of their types.
#![tactic(auto)]

mod carried;
mod carrying;
mod getting;
mod got;
mod posting;
mod sending;
mod twin;

pub use carried::CarriedPacket;
pub use got::Got;
pub use twin::Twin;
