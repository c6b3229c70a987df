//! The word `compose`: tiles of several layers are laid over each other on a cabinet in memory.
//!
//! Promises: each end of `run_compose` has its cause (`specs/Ends.antt`). The first line of the input is the recipe; each later line is
//! answered by the row of its order, from the cabinet that the line before it left, and what is written is these answers in the order
//! of the lines (`specs/Run.antt`). So each number of a tile is fresh at its part's own ask, and above every truncation of a line before it
//! that covers the part; where the source is modelled, the tile is the composite of the pictures of its numbers. Texts that are in order
//! are answered to their end, unless something fails or memory runs out (`specs/Complete.antt`).
//! Stands on composite_layers and layer_recipes, whose recipes it reads and whose composites it writes, on cabinet, in which the parts
//! are kept, on command_setup for the catalogue, on command_status for how it ends, on job_forms for covers, on schedule_text,
//! tile_service and tile_requests for lines and small texts, and on the crates whose types its calls name.
#![tactic(auto)]

mod composing;
mod end;
mod line;
mod lines;
mod orders;
mod reply;
mod text;
mod word;
mod words;

pub use end::ComposeEnd;
pub use line::CompositionLineEnd;
pub use lines::CompositionLinesEnd;
pub use orders::{CompositionOrder, UnreadOrder};
pub use reply::CompositionReply;
pub use word::run_compose;
