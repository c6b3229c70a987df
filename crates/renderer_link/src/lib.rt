//! A renderer over HTTP as a source of pictures: one connection a render, at most so many renders at a time, and a line on standard error
//! where one fails.
//!
//! Promises: a render answers `Failed` only where the source's count of faults rose. `request_picture` sends the request over any link, and leaves in the
//! raster the pixels of the answer that came, or the raster as it was, for the reason that is told (`specs/Pictures.antt`). A connection isn't
//! modelled, so of a renderer over TCP no clause says more: that `Renderer` sends what `RendererConfig::request` gives is tried.
//! Stands on http_source, http_answer, http_wire, window_request and source_render, and on the crates whose types its calls name.
#![tactic(auto)]

mod deadline;
mod exchange;
mod fault;
mod hosts;
mod picture;
mod renderer;
mod report;
mod source;
mod timed_link;
mod turns;

pub use exchange::{ExchangeFault, exchanged};
pub use fault::RendererFault;
pub use hosts::HostFault;
pub use picture::{PictureFault, request_picture};
pub use renderer::Renderer;
pub use source::HttpSource;
