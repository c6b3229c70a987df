//! Sources of pictures: what renders the windows of which a cache cuts its tiles.
//!
//! Promises: `Source::render` leaves in the raster the picture of the ticket's number on the window, where the source
//! is modelled as the catalogue's; it answers `Failed` only where its count of faults rose. Of every source, modelled or not, it keeps
//! for proofs which image it gave for which ticket and window: exactly what each render left in its raster. `Numbered` never fails, and
//! `Scripted` fails at its listed calls alone. Stands on raster_field, metatile_locks, catalog, metatile_plan and base.
#![tactic(auto)]

mod any;
mod cell_file;
mod given;
mod grid_file;
mod lent;
mod numbered;
mod painter;
mod palette;
mod scripted;
mod source;

pub use any::AnySource;
pub use given::GivenImages;
pub use grid_file::GridFile;
pub use numbered::Numbered;
pub use scripted::Scripted;
pub use source::{Failed, Source};
