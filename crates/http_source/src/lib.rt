//! The operator's choice of a renderer over HTTP, as a JSON text, what the renderer is asked for a window, and the picture that its body
//! is.
//!
//! Promises: `RendererConfig::read` gives what a text says, or its first fault in the order of the members, behind which come the
//! templates (`specs/Forms.antt` and `specs/Configs.antt`); `RendererConfig::request` is the request for exactly the window, by the
//! template of its layer (`specs/Asked.antt`); `paint` leaves in the raster the pixels of the pixmap of its size that a body is, and tells
//! where the body is none.
//! Stands on window_request, ppm_reading, json_forms, raster_field, catalog, metatile_plan, matrix_geometry, exact_ratio, serde_json and
//! itoa.
#![tactic(auto)]

mod asking;
mod config;
mod edges;
mod fault;
mod form;
mod layers;
mod member;
mod painting;
mod reading;
mod values;

pub use asking::WindowTexts;
pub use config::{LayerTemplate, RendererConfig};
pub use fault::{RendererFault, RendererField};
pub use painting::paint;
