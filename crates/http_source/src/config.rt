//! What the text says, with its templates read.
ghost use Rattle.std.specs.Prelude.{◌≡◌, ◌<◌, ◌≤◌, length, IfSome};
ghost use Rattle.catalog.specs.Valid.{IsValid};
ghost use Rattle.http_source.specs.Configs.{ReadsConfig, ReadsLayers, ReadsTemplate, ReadsTemplates, own_place};

use crate::fault::{RendererFault, RendererField};
use crate::form::{LayerUrl, RendererForm};
use crate::reading::form_of;
use catalog::Catalogue;
use std::alloc::Global;
use window_request::{Template, TemplateFault};

/// A layer with a template of its own.
#[derive(Drop)]
pub struct LayerTemplate {
    /// The number of the layer in the catalogue.
    pub layer: u32,
    pub template: Template,
}

/// Which renderer is asked for the windows of which layer, and how long it may take.
#[derive(Drop)]
pub struct RendererConfig {
    /// What is asked for the windows of a layer without a template of its own.
    pub template: Template,
    /// The layers that have one, each once.
    pub layers: Vec<LayerTemplate>,
    /// How long a connection may take to be made, in seconds, 1 to 60.
    pub connect_seconds: u32,
    /// How long a render may take, from before the connection to the last byte of the answer, in seconds, 1 to 600.
    pub answer_seconds: u32,
    /// How many renders are asked for at a time, 1 to 64.
    pub renders: u32,
}

/// The template that the text of a member is.
#[tactic(auto, using(crate::proofs::Templates::no_template))]
fn template_of(
    alloc: Global,
    text: &[u8],
    field: RendererField,
    at: u32,
) -> Result<Template, RendererFault>
    ensures { ReadsTemplate text.now field at result }
{
    match Template::read(alloc, text) {
        Ok(template) => Ok(template),
        Err(TemplateFault::OutOfMemory) => Err(RendererFault::OutOfMemory),
        Err(how) => Err(RendererFault::Template(field, at, how)),
    }
}

/// The template of a layer, the entry at this place.
fn own_template(alloc: Global, url: &LayerUrl, at: u32) -> Result<Template, RendererFault>
    ensures { ReadsTemplate url.now.url RendererField.LayerUrl at result }
{
    template_of(alloc, url.url.bytes(), RendererField::LayerUrl, at)
}

/// The templates of the layers that have one of their own.
fn layer_templates(alloc: Global, urls: &[LayerUrl]) -> Result<Vec<LayerTemplate>, RendererFault>
    requires { length urls.now ≤ 64 }
    ensures { ReadsLayers urls.now result }
{
    let mut templates = Vec::new(alloc);
    for url in urls {
        let at = templates.len() as u32;
        let template = own_template(alloc, url, at)?;
        templates.push(LayerTemplate {
            layer: url.layer,
            template,
        })?;
    }
    Ok(templates)
}

/// The templates of what a text says.
#[tactic(auto, using(crate::proofs::Templates::url_stops, crate::proofs::Templates::layers_stop))]
fn config_of(alloc: Global, form: &RendererForm) -> Result<RendererConfig, RendererFault>
    requires { length form.now.layers ≤ 64 }
    ensures { ReadsTemplates form.now result }
{
    let template = match template_of(alloc, form.url.bytes(), RendererField::Url, 0) {
        Ok(template) => template,
        Err(fault) => return Err(fault),
    };
    let layers = match layer_templates(alloc, form.layers.as_slice()) {
        Ok(layers) => layers,
        Err(fault) => return Err(fault),
    };
    Ok(RendererConfig {
        template,
        layers,
        connect_seconds: form.connect_seconds,
        answer_seconds: form.answer_seconds,
        renders: form.renders,
    })
}

impl RendererConfig {
    /// What a text says, which is one JSON object (RFC 8259), or its first fault: first in the order of the members, `url`, `layers` with
    /// `layer` and `url` of each entry, `connectSeconds`, `answerSeconds` and `renders`, and behind them the templates in the same order.
    ///
    /// `NotJson` where the text isn't one object; `Missing` where `url`, or `layer` or `url` of an entry, is absent; `Bad` where a member has
    /// another form or names a layer that the catalogue hasn't; `Duplicate` where a layer is named twice; `Limit` where a number is
    /// beyond its limits or there are more than 64 entries; `Template` where the text of a `url` is no template, with the cause.
    /// `OutOfMemory` where memory runs out.
    #[tactic(auto, using(crate::proofs::WholeTexts::form_stops, crate::proofs::WholeTexts::form_read))]
    pub fn read(
        alloc: Global,
        catalogue: &Catalogue,
        text: &[u8],
    ) -> Result<RendererConfig, RendererFault>
        requires { IsValid catalogue.now }
        ensures { ReadsConfig catalogue.now text.now result }
    {
        let form = match form_of(alloc, catalogue, text) {
            Ok(form) => form,
            Err(fault) => return Err(fault),
        };
        config_of(alloc, &form)
    }

    /// The place, among the layers that have a template of their own, of the layer of this number; `None` exactly where it has none.
    pub fn own_place(&self, layer: u32) -> Option<usize>
        ensures place { result ≡ own_place self.now.layers.items layer }
        ensures there { IfSome result (λ place. place < length self.now.layers.items) }
    {
        for (place, own) in self.layers.iter().enumerate() {
            if own.layer == layer {
                return Some(place);
            }
        }
        None
    }
}
