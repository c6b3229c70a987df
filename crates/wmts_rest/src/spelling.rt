//! The texts of a tile's path as pairs of names and values, so that a path is read as the query that it stands for.
ghost use Rattle.std.specs.Prelude.{◌≡◌, ◌∷◌, ◌<◌, ◌≤◌, IfOk, IfSome, codes, length, map};
ghost use Rattle.catalog.specs.Valid.{IsValid};
ghost use Rattle.wmts_kvp.specs.Reading.{IsOfCatalogue};
ghost use Rattle.wmts_rest.specs.Paths.{dimensions_at, is_complete, names_of, pairs_of, pairs_under, supplied, layer_reading, texts_reading};

use catalog::{Catalogue, Dimension};
use exact_ratio::Words;
use std::alloc::{AllocError, Global};
use wmts_kvp::{Query, read_pairs};

fn dimensions_at(catalogue: &Catalogue, layer: Option<u32>) -> &[Dimension]
    ensures { result.now ≡ dimensions_at catalogue.now layer }
{
    match layer {
        Some(layer) => catalogue.dimensions_of(layer),
        None => &[],
    }
}

/// Whether each dimension of the layer has a text, where there is a layer.
fn is_complete(catalogue: &Catalogue, layer: Option<u32>, count: usize) -> bool
    requires { 6 ≤ count }
    ensures { result ≡ is_complete catalogue.now layer count }
{
    match layer {
        Some(layer) => count - 6 == catalogue.dimensions_of(layer).len(),
        None => true,
    }
}

/// The parameters up to the last dimension.
fn leading(alloc: Global, dims: &[Dimension]) -> Result<Vec<Words>, AllocError>
    ensures { IfOk result (λ names. names.items ≡ codes "layer" ∷ codes "style" ∷ map (λ d. d.id) dims.now) }
{
    let mut names = Vec::new(alloc);
    names.push(Words::new(alloc, b"layer")?)?;
    names.push(Words::new(alloc, b"style")?)?;
    for dimension in dims {
        names.push(Words::new(alloc, dimension.id.bytes())?)?;
    }
    Ok(names)
}

/// The parameters that the texts of a layer with these dimensions give.
#[tactic(auto, using(crate::proofs::Pairs::four_more))]
fn names_of(alloc: Global, dims: &[Dimension]) -> Result<Vec<Words>, AllocError>
    ensures { IfOk result (λ names. names.items ≡ names_of dims.now) }
{
    let mut names = leading(alloc, dims)?;
    names.push(Words::new(alloc, b"TileMatrixSet")?)?;
    names.push(Words::new(alloc, b"TileMatrix")?)?;
    names.push(Words::new(alloc, b"TileRow")?)?;
    names.push(Words::new(alloc, b"TileCol")?)?;
    Ok(names)
}

fn pair(alloc: Global, name: &[u8], value: &[u8]) -> Result<(Words, Words), AllocError>
    ensures { IfOk result (λ pair. pair ≡ (name.now, value.now)) }
{
    Ok((Words::new(alloc, name)?, Words::new(alloc, value)?))
}

/// The parameters that have one value for all tiles.
fn fixed_pairs(alloc: Global) -> Result<Vec<(Words, Words)>, AllocError>
    ensures { IfOk result (λ pairs. pairs.items ≡ supplied) }
{
    let mut pairs = Vec::new(alloc);
    pairs.push(pair(alloc, b"service", b"WMTS")?)?;
    pairs.push(pair(alloc, b"request", b"GetTile")?)?;
    pairs.push(pair(alloc, b"version", b"1.0.0")?)?;
    pairs.push(pair(alloc, b"format", b"image/x-portable-pixmap")?)?;
    Ok(pairs)
}

/// The supplied pairs, and a pair of each name and its text.
fn pairs_under(
    alloc: Global,
    names: &[Words],
    texts: &[Words],
) -> Result<Vec<(Words, Words)>, AllocError>
    ensures { IfOk result (λ pairs. pairs.items ≡ pairs_under names.now texts.now) }
{
    let mut pairs = fixed_pairs(alloc)?;
    for (name, text) in names.iter().zip(texts) {
        pairs.push(pair(alloc, name.bytes(), text.bytes())?)?;
    }
    Ok(pairs)
}

/// Reads the texts of 6 or more segments, of which the first names the layer, where it names one.
#[tactic(auto, unfolding(crate::specs::Paths::pairs_of))]
fn read_layer(
    alloc: Global,
    catalogue: &Catalogue,
    layer: Option<u32>,
    texts: &[Words],
) -> Result<Option<Query>, AllocError>
    requires valid { IsValid catalogue.now }
    requires count { 6 ≤ length texts.now }
    ensures reading { IfOk result (λ q. q ≡ layer_reading catalogue.now layer texts.now) }
    ensures tile { IfOk result (λ q. IfSome q (IsOfCatalogue catalogue.now)) }
{
    if !is_complete(catalogue, layer, texts.len()) {
        return Ok(None);
    }
    let names = names_of(alloc, dimensions_at(catalogue, layer))?;
    let pairs = pairs_under(alloc, names.as_slice(), texts)?;
    let query = read_pairs(alloc, catalogue, pairs.as_slice())?;
    Ok(Some(query))
}

/// Reads the texts of 6 or more segments: `None` where they name a layer, and aren't as many as it wants. `AllocError` where
/// memory runs out.
pub fn read_texts(
    alloc: Global,
    catalogue: &Catalogue,
    texts: &[Words],
) -> Result<Option<Query>, AllocError>
    requires valid { IsValid catalogue.now }
    requires count { 6 ≤ length texts.now }
    ensures reading { IfOk result (λ q. q ≡ texts_reading catalogue.now texts.now) }
    ensures tile { IfOk result (λ q. IfSome q (IsOfCatalogue catalogue.now)) }
{
    let [first, ..] = texts else {
        return Ok(None);
    };
    let layer = catalogue.layer_named(first.bytes());
    read_layer(alloc, catalogue, layer, texts)
}
