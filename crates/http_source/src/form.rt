//! What the text says before its templates are read.
use exact_ratio::{Items, Words};

/// A layer with a template of its own.
#[derive(Drop)]
pub struct LayerUrl {
    /// The number of the layer in the catalogue.
    pub layer: u32,
    /// The text of its template.
    pub url: Words,
}

/// What the text says, with the templates as they stand there.
#[derive(Drop)]
pub struct RendererForm {
    pub url: Words,
    pub layers: Items<LayerUrl>,
    pub connect_seconds: u32,
    pub answer_seconds: u32,
    pub renders: u32,
}
