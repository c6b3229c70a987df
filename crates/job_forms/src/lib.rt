//! Covers and jobs as JSON texts, and the places that a job goes through.
//!
//! A job is a seed, a reseed or a truncation that runs in the background.
//! Promises: `read_cover` gives the cover of a text or its first fault in the order of its members (`specs/Cover.antt`), and
//! a cover that was read is of the catalogue (`specs/OfCatalogue.antt` of served_covers). `read_job` gives the job of a text or its first
//! fault (`specs/Reading.antt`), and only jobs that fit the catalogue (`specs/Job.antt`), which `fits` tells exactly; `count` and `nth` are
//! the length and the entries of the list of a job's places (`specs/Places.antt`), which are the metatiles of which the job's cover covers
//! a tile, each once.
//! Stands on json_forms, served_covers, truncation_list, raster_field, catalog, metatile_plan, matrix_geometry and serde_json.
#![tactic(auto)]

mod bounds;
mod cover;
mod fault;
mod job;
mod laws;
mod member;
mod metas;
mod names;
mod places;
mod reading;
mod themes;
mod values;
mod wanted;
mod zooms;

pub use cover::read_cover;
pub use fault::{JobFault, JobField};
pub use job::{Job, JobKind};
pub use laws::laws_of_places;
pub use places::{count, fits, nth};
pub use reading::read_job;
