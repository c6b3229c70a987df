//! The text of what is kept, told by one turn for each of its lines.
ghost use Rattle.std.specs.Prelude.{◌≡◌, ◌++◌, IfOk, OnErr, OnOk, length};
ghost use Rattle.cache_access.specs.Turned.{Goes};
ghost use Rattle.catalog.specs.Valid.{IsValid};
ghost use Rattle.tile_requests.specs.Counting.{HasCounted, HasCountedVainly, HasToldUsage};
ghost use Rattle.tile_requests.specs.Texts.{kept_counts_text, layer_line, quota_text, totals_text};

use crate::numbers::push_number;
use cabinet_chest::Counts;
use cache_access::Access;
use catalog::Layer;
use exact_ratio::Words;
use std::alloc::{AllocError, Global};

fn add_quota(text: &mut Vec<u8>, quota: Option<u64>) -> Result<(), AllocError>
    ensures { OnOk result (text.new.items ≡ text.old.items ++ quota_text quota) }
{
    match quota {
        None => text.extend_from_slice(b"-"),
        Some(bytes) => push_number(text, bytes),
    }
}

/// Adds how many metatiles are kept, their bytes, and their quota, `-` if there is none.
fn add_counts(
    text: &mut Vec<u8>,
    metatiles: u32,
    bytes: u64,
    quota: Option<u64>,
) -> Result<(), AllocError>
    ensures { OnOk result (text.new.items ≡ text.old.items ++ kept_counts_text metatiles bytes quota) }
{
    text.extend_from_slice(b" ")?;
    push_number(text, u64::from(metatiles))?;
    text.extend_from_slice(b" ")?;
    push_number(text, bytes)?;
    text.extend_from_slice(b" ")?;
    add_quota(text, quota)?;
    text.extend_from_slice(b"\n")?;
    Ok(())
}

/// Adds the line of a layer.
fn add_layer(text: &mut Vec<u8>, layer: &Layer, counts: &Counts) -> Result<(), AllocError>
    ensures { OnOk result (text.new.items ≡ text.old.items ++ layer_line layer.now counts.now) }
{
    text.extend_from_slice(b"layer ")?;
    text.extend_from_slice(layer.id.bytes())?;
    add_counts(text, counts.metatiles, counts.bytes, layer.quota)
}

/// Adds the line of all layers and that of the truncations.
fn add_totals(
    text: &mut Vec<u8>,
    quota: Option<u64>,
    all: &Counts,
    cuts: &Counts,
) -> Result<(), AllocError>
    ensures { OnOk result (text.new.items ≡ text.old.items ++ totals_text quota all.now cuts.now) }
{
    text.extend_from_slice(b"total")?;
    add_counts(text, all.metatiles, all.bytes, quota)?;
    text.extend_from_slice(b"cuts ")?;
    push_number(text, u64::from(cuts.cuts))?;
    text.extend_from_slice(b"\n")
}

/// The lines of all layers, each told by a turn. `AllocError` if memory runs out.
fn layer_lines<A: Access>(
    access: &A,
    alloc: Global,
    cache: &mut A::Cache,
) -> Result<Vec<u8>, AllocError>
    requires reaches { A.reaches access.now cache.old }
    requires valid { IsValid (A.catalogue access.now cache.old) }
    ensures told { IfOk result (λ text. HasCounted (A.gains access.now) (A.catalogue access.now cache.old) cache.old cache.new (length (A.catalogue access.now cache.old).layers) text.items) }
    ensures vain { OnErr result (HasCountedVainly (A.gains access.now) cache.old cache.new) }
    ensures goes { Goes (A.catalogue access.now) (A.reaches access.now) (A.owes access.now) (A.lasts access.now) cache.old cache.new }
    ensures still { A.sound access.now cache.old → A.sound access.now cache.new }
    ensures rests { A.rests access.now cache.old → A.rests access.now cache.new }
{
    let mut text = Vec::new(alloc);
    let layers = access.catalogue(cache).layers.len() as u32;
    'counting: for number in 0..layers {
        let counts = access.usage(cache, number);
        let Some(layer) = access.catalogue(cache).layers.get(number as usize) else {
            unreachable!()
        };
        match add_layer(&mut text, layer, &counts) {
            Err(fault) => return Err(fault),
            Ok(()) => {}
        }
    }
    Ok(text)
}

/// What is kept of each layer and of all of them, and how many truncations are in force, each line told by a turn of its own. `AllocError`
/// if memory runs out.
pub fn usage_text<A: Access>(
    access: &A,
    alloc: Global,
    cache: &mut A::Cache,
) -> Result<Words, AllocError>
    requires reaches { A.reaches access.now cache.old }
    requires valid { IsValid (A.catalogue access.now cache.old) }
    ensures told { IfOk result (HasToldUsage (A.gains access.now) (A.catalogue access.now cache.old) cache.old cache.new) }
    ensures vain { OnErr result (HasCountedVainly (A.gains access.now) cache.old cache.new) }
    ensures goes { Goes (A.catalogue access.now) (A.reaches access.now) (A.owes access.now) (A.lasts access.now) cache.old cache.new }
    ensures still { A.sound access.now cache.old → A.sound access.now cache.new }
    ensures rests { A.rests access.now cache.old → A.rests access.now cache.new }
{
    let mut text = match layer_lines(access, alloc, cache) {
        Err(fault) => return Err(fault),
        Ok(text) => text,
    };
    let layers = access.catalogue(cache).layers.len() as u32;
    let all = access.usage(cache, layers);
    let cuts = access.usage(cache, layers);
    match add_totals(&mut text, access.catalogue(cache).quota, &all, &cuts) {
        Err(fault) => Err(fault),
        Ok(()) => Ok(Words::of(text)),
    }
}
