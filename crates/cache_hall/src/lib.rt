//! A cache that many threads serve: tiles, truncations and expiry as turns at one cabinet.
//!
//! A `Hall` is a cabinet behind a turnstile, with its catalogue. Whoever has a pass gets tiles from it, refreshes metatiles, truncates and
//! expires: `Shared` is the access (cache_access) of a thread with a pass. Promises (`specs/Turned.antt`, `specs/Gets.antt`,
//! `specs/Refreshes.antt`): each call says which turns its pass made, in order, each of them the row of a command of the one cabinet,
//! whose book answers for all that the pass had seen. A tile is newer than each truncation that covers it and for which the pass's book
//! answered before the call or the book answers that its last ask found, and so is a metatile that is refreshed, for each of its tiles;
//! if the hall is told to be sound, it is the encoded tile of its number. Each blob that a pass hands in is cut out of an image that its
//! source gave for the ticket.
//! Stands on cache_access, cabinet_chest, turnstile and base.
#![tactic(auto)]

mod get_tile;
mod hall;
mod refresh_metatile;
mod shared;
mod turns;
mod waiting;

pub use get_tile::get;
pub use hall::{Hall, HallEntry};
pub use refresh_metatile::refresh;
pub use shared::Shared;
