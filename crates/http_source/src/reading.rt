//! The reading of a whole text, up to its templates.
ghost use Rattle.std.specs.Prelude.{◌≤◌, IfOk, length};
ghost use Rattle.catalog.specs.Valid.{IsValid};
ghost use Rattle.http_source.specs.Forms.{form_in, form_of};
ghost use Rattle.http_source.specs.Outcome.{Gives};
ghost use Rattle.serde_json.specs.View.{view};

use crate::fault::{RendererFault, RendererField};
use crate::form::RendererForm;
use crate::layers::layers;
use crate::member::{required_text, whole_or};
use catalog::Catalogue;
use exact_ratio::Words;
use json_forms::object_in;
use serde_json::Value;
use std::alloc::Global;

/// What an object says.
#[tactic(auto, unfolding(crate::specs::Forms::form_in))]
fn form_in(
    alloc: Global,
    catalogue: &Catalogue,
    object: &Value,
) -> Result<RendererForm, RendererFault>
    requires { IsValid catalogue.now }
    ensures gives { Gives (λ f. f) result (form_in catalogue.now (view object.now)) }
    ensures few { IfOk result (λ f. length f.layers ≤ 64) }
{
    let url = required_text(object, "url", RendererField::Url, 0)?;
    let layers = layers(alloc, catalogue, object)?;
    let connect_seconds = whole_or(
        object,
        "connectSeconds",
        RendererField::ConnectSeconds,
        1,
        60,
        5,
    )?;
    let answer_seconds = whole_or(
        object,
        "answerSeconds",
        RendererField::AnswerSeconds,
        1,
        600,
        60,
    )?;
    let renders = whole_or(object, "renders", RendererField::Renders, 1, 64, 8)?;
    Ok(RendererForm {
        url: Words::new(alloc, url)?,
        layers,
        connect_seconds,
        answer_seconds,
        renders,
    })
}

/// What a text says.
#[tactic(auto, unfolding(crate::specs::Forms::form_of))]
pub(crate) fn form_of(
    alloc: Global,
    catalogue: &Catalogue,
    text: &[u8],
) -> Result<RendererForm, RendererFault>
    requires { IsValid catalogue.now }
    ensures gives { Gives (λ f. f) result (form_of catalogue.now text.now) }
    ensures few { IfOk result (λ f. length f.layers ≤ 64) }
{
    match object_in(alloc, text) {
        Ok(Some(object)) => form_in(alloc, catalogue, &object),
        Ok(None) => Err(RendererFault::NotJson),
        Err(_) => Err(RendererFault::OutOfMemory),
    }
}
