//! The cabinet: which metatiles are kept, which renders run, which truncations are in force, and what is used and by whom.
//!
//! What a cabinet answers is a function of its history, the list of what happened in it (`specs/History.antt`).
//! Promises: each command is its row of `specs/Commands.antt`; what is kept stays the picture of its number; a tile that
//! is answered is fresh, that is, newer than each truncation before its ask that covers it, and within its layer's age
//! limit (`specs/Fresh.antt`). What is used counts the metatiles that are kept, and an expiry drops the victim by the
//! layer's policy, exactly where a quota is exceeded (`specs/Counted.antt`).
//! Stands on metatile_locks, quota_ledger, expiry_policy, served_covers, truncation_list, extent_map, raster_field,
//! metatile_plan, catalog, matrix_geometry, base, and indexmap for what is kept.
#![tactic(auto)]

mod ages;
mod blob;
mod cabinet;
mod cabinet_core;
mod entry;
mod held;
mod hitting;
mod judged;
mod keeper;
mod kept;
mod laws;
mod memory;
mod ranking;
mod replies;
mod shelf;
mod shelving;
mod sifting;
mod start;
mod store;
mod tally;
mod text;
mod turns;

pub use blob::{blob_bytes, tile_in, tile_span};
pub use cabinet::Cabinet;
pub use cabinet_core::Core;
pub use entry::HistoryEntry;
pub use hitting::{factors_of, grid_of, overtake};
pub use judged::{Admitted, Judged, Unsaved};
pub use keeper::Keeper;
pub use kept::{Blob, Kept, KeptBlob};
pub use laws::{laws_of_histories, laws_of_rows};
pub use ranking::{KeptRanking, Ranked, rank};
pub use replies::{Asked, CutReply, Expired, Finished, Forced, Saved};
pub use shelving::{FoundTile, KeptHit};
pub use start::TracedOpening;
pub use store::Store;
pub use tally::{KeptTally, give_back, law_of_extents};
pub use text::Text;
pub use turns::{Turn, as_asked, take_turn, turn_for, turn_where};
