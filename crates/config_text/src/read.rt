//! The reading of a whole text: the catalogue with the text's SHA-256, or the first fault.
ghost use Rattle.std.specs.Prelude.{◌≡◌, Ok, IfOk};
ghost use Rattle.catalog.specs.FirstFault.{first_fault};
ghost use Rattle.catalog.specs.Valid.{IsValid};
ghost use Rattle.config_text.specs.Reading.{Gives};
ghost use Rattle.config_text.specs.Text.{digest_of, catalogue_in, catalogue_of};
ghost use Rattle.serde_json.specs.View.{view};

use crate::grids::grids_of;
use crate::json::object_in;
use crate::layers::layers_of;
use crate::outermost::settings_of;
use catalog::{Catalogue, CatalogueFault};
use exact_ratio::Items;
use serde_json::Value;
use sha2::{Digest, Sha256};
use std::alloc::Global;

#[tactic(auto, unfolding(crate::specs::Text::digest_of))]
fn digest_of(text: &[u8]) -> [u8; 32]
    ensures { result ≡ digest_of text.now }
{
    Sha256::digest(text)
}

#[tactic(auto, unfolding(crate::specs::Text::catalogue_in))]
fn catalogue_in(
    alloc: Global,
    digest: [u8; 32],
    object: &Value,
) -> Result<Catalogue, CatalogueFault>
    ensures gives { Gives (λ c. c) result (catalogue_in digest (view object.now)) }
    ensures digest { IfOk result (λ c. c.digest ≡ digest) }
    ensures met { IfOk result (λ c. first_fault c ≡ Ok tt) }
{
    let settings = settings_of(object)?;
    let grids = grids_of(alloc, object)?;
    let layers = layers_of(alloc, grids.as_slice(), object)?;
    Ok(Catalogue {
        digest,
        source: settings.source,
        kept_limit: settings.kept_limit,
        cut_limit: settings.cut_limit,
        blob_bytes: settings.blob_bytes,
        quota: settings.quota,
        policy: settings.policy,
        grids: Items::of(grids),
        layers: Items::of(layers),
    })
}

#[tactic(auto, unfolding(crate::specs::Text::catalogue_of))]
fn catalogue_of(alloc: Global, text: &[u8]) -> Result<Catalogue, CatalogueFault>
    ensures gives { Gives (λ c. c) result (catalogue_of text.now) }
    ensures digest { IfOk result (λ c. c.digest ≡ digest_of text.now) }
    ensures met { IfOk result (λ c. first_fault c ≡ Ok tt) }
{
    if text.is_empty() {
        return Ok(Catalogue::demo(alloc)?);
    }
    let object = object_in(alloc, text)?;
    catalogue_in(alloc, digest_of(text), &object)
}

/// The catalogue of a text, which is one JSON object (RFC 8259), or its first fault. A text of no bytes gives the
/// built-in catalogue. The digest is the SHA-256 of the text (FIPS 180-4). `OutOfMemory` where memory runs out.
pub fn read_catalogue(alloc: Global, text: &[u8]) -> Result<Catalogue, CatalogueFault>
    ensures gives { Gives (λ c. c) result (catalogue_of text.now) }
    ensures digest { IfOk result (λ c. c.digest ≡ digest_of text.now) }
    ensures met { IfOk result (λ c. first_fault c ≡ Ok tt) }
    ensures valid { IfOk result (λ c. IsValid c) }
{
    catalogue_of(alloc, text)
}
