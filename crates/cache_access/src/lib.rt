//! Tiles and metatiles from a cache, whoever commands it: one thread that has it for itself, or one of many that take turns.
//!
//! `Access` is the trait of a way to a cache: settled asks and forces, the end of a render, truncation, upkeep and counts, each of which says
//! which turns were made. `get`, `refresh`, `save_uses_of` and `expire_until_within` are written once, over any access: that of a thread that
//! has a cabinet for itself (`Alone`), or that of one among many (`Shared` of cache_hall).
//! Promises (`specs/Gets.antt`, `specs/Refreshes.antt`, `specs/KeepsUp.antt`): each call says which turns were made, in order; a tile is
//! newer than each truncation that covers it and for which the book that was seen before answers, or the one that its ask found, and so is
//! a metatile that is refreshed, for each of its tiles; it is the encoded tile of its number, if the cache is sound and the source the
//! catalogue's; of whatever source, each blob that is handed in is cut out of an image that it gave for the ticket
//! (`specs/Sourced.antt`); upkeep makes turns of its one command until nothing is left to do, the disk fails, or as many were made as may be.
//! Stands on cabinet_chest, turnstile and cache_core.
#![tactic(auto)]

mod access;
mod alone;
mod fault;
mod get_tile;
mod making;
mod refresh_metatile;
mod refreshed;
mod remaking;
mod requesting;
mod upkeep;
mod upkept;

pub use access::Access;
pub use alone::Alone;
pub use fault::GetFault;
pub use get_tile::get;
pub use refresh_metatile::refresh;
pub use refreshed::Refreshed;
pub use upkeep::{expire_until_within, save_uses_of};
pub use upkept::Upkept;
