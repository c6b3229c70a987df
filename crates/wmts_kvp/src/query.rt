//! The reading of a query: its parameters, in the order of the table.
ghost use Rattle.std.specs.Prelude.{◌≡◌, ◌<◌, IfOk, IsSomeAnd, length, slice_get};
ghost use Rattle.catalog.specs.LookUp.{HasValues, IsTile};
ghost use Rattle.catalog.specs.Valid.{IsValid};
ghost use Rattle.dimension_key.specs.Draft.{draft_of};
ghost use Rattle.wmts_kvp.specs.Ends.{row_of};
ghost use Rattle.wmts_kvp.specs.Reading.{address_in, address_of, reading, query_reading, tile_asked, IsOfCatalogue};

use crate::end::ReadingEnd;
use crate::pairs::pairs_of;
use crate::rows;
use crate::theme::theme;
use catalog::Catalogue;
use exact_ratio::Words;
use exception_report::{Code, Locator};
use matrix_geometry::{Address, Theme};
use std::alloc::{AllocError, Global};

/// What a request asks for.
#[derive(Drop)]
pub enum Query {
    /// A tile.
    Tile(Address),
    /// The document of the service's capabilities.
    Capabilities,
    /// Nothing: the refusal's code, and where in the request its reason lies.
    Refused(Code, Locator),
}

// What a row gives, or else the end that it gives: `?` less its conversion of the error, which each row's proof would pay for.
macro_rules! row {
    ($row:expr) => {
        match $row {
            Ok(given) => given,
            Err(end) => return Err(end),
        }
    };
}

/// The rows of the table of parameters after the dimensions, each with the name that a refusal gives.
#[tactic(auto, unfolding(crate::specs::Reading::address_in, crate::specs::Pairs::value_of))]
fn address_in<'a>(
    catalogue: &Catalogue,
    pairs: &'a [(Words, Words)],
    layer: u32,
    theme: Theme,
) -> Result<Address, ReadingEnd<'a>>
    requires valid { IsValid catalogue.now }
    requires layer { layer ≡ theme.layer }
    requires style { IsSomeAnd (slice_get catalogue.now.layers layer) (λ l. theme.style < length l.styles) }
    requires values { HasValues catalogue.now theme }
    ensures value { row_of result ≡ address_in catalogue.now pairs.now layer theme }
    ensures tile { IfOk result (IsTile catalogue.now) }
{
    let grid = row!(rows::grid(catalogue, layer, pairs, b"TileMatrixSet"));
    let z = row!(rows::matrix(catalogue, grid, pairs, b"TileMatrix"));
    let row = row!(rows::digits(pairs, b"TileRow"));
    let col = row!(rows::digits(pairs, b"TileCol"));
    let row = row!(rows::in_range(b"TileRow", rows::rows_of(catalogue, grid, z), row));
    let col = row!(rows::in_range(b"TileCol", rows::cols_of(catalogue, grid, z), col));
    Ok(Address {
        theme,
        grid,
        z,
        row,
        col,
    })
}

/// The rows that say what is asked of the service: `Ok` where it is a tile.
#[tactic(auto, unfolding(crate::specs::Reading::tile_asked, crate::specs::Pairs::value_of))]
fn tile_asked<'a>(pairs: &'a [(Words, Words)]) -> Result<(), ReadingEnd<'a>>
    ensures { row_of result ≡ tile_asked pairs.now }
{
    row!(rows::fixed(pairs, b"service", b"WMTS"));
    row!(rows::operation(pairs, b"request"));
    rows::fixed(pairs, b"version", b"1.0.0")
}

/// All rows of the table in order.
#[tactic(auto, unfolding(crate::specs::Reading::address_of, crate::specs::Pairs::value_of))]
fn address_of<'a>(
    catalogue: &'a Catalogue,
    pairs: &'a [(Words, Words)],
) -> Result<Address, ReadingEnd<'a>>
    requires { IsValid catalogue.now }
    ensures value { row_of result ≡ address_of catalogue.now pairs.now }
    ensures tile { IfOk result (IsTile catalogue.now) }
{
    row!(tile_asked(pairs));
    let layer = row!(rows::layer(catalogue, pairs, b"layer"));
    let style = row!(rows::style(catalogue, layer, pairs, b"style"));
    row!(rows::fixed(pairs, b"format", b"image/x-portable-pixmap"));
    let draft = row!(theme(catalogue, pairs, layer, style));
    address_in(catalogue, pairs, layer, draft.done())
}

/// Reads what decoded pairs of names and values ask for. `AllocError` where memory runs out.
#[tactic(auto, unfolding(crate::specs::Reading::reading))]
pub fn read_pairs(
    alloc: Global,
    catalogue: &Catalogue,
    pairs: &[(Words, Words)],
) -> Result<Query, AllocError>
    requires { IsValid catalogue.now }
    ensures reading { IfOk result (λ q. q ≡ reading catalogue.now pairs.now) }
    ensures tile { IfOk result (λ q. IsOfCatalogue catalogue.now q) }
{
    match address_of(catalogue, pairs) {
        Ok(address) => Ok(Query::Tile(address)),
        Err(ReadingEnd::Document) => Ok(Query::Capabilities),
        Err(ReadingEnd::Refusal(code, locator)) => {
            let locator = Words::new(alloc, locator)?;
            Ok(Query::Refused(code, Locator::At(locator)))
        }
    }
}

/// Reads what a query asks for, the part of a request's target after its `?`. `AllocError` where memory runs out.
#[tactic(auto, unfolding(crate::specs::Reading::query_reading))]
pub fn read_query(alloc: Global, catalogue: &Catalogue, query: &[u8]) -> Result<Query, AllocError>
    requires { IsValid catalogue.now }
    ensures reading { IfOk result (λ q. q ≡ query_reading catalogue.now query.now) }
    ensures tile { IfOk result (λ q. IsOfCatalogue catalogue.now q) }
{
    let pairs = pairs_of(alloc, query)?;
    read_pairs(alloc, catalogue, pairs.as_slice())
}
