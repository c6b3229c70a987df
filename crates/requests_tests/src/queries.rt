//! Tests of wmts_kvp.
ghost use Rattle.catalog.specs.Valid.{IsValid};

use catalog::Catalogue;
use exact_ratio::Words;
use exception_report::Code;
use fixtures::sea_catalogue;
use matrix_geometry::{Address, Theme};
use std::alloc::{AllocError, Global};
use std::test::Fail;
use wmts_kvp::{Query, read_pairs, read_query};

const TILE: Address = Address {
    theme: Theme {
        layer: 0,
        style: 0,
        dims: [0, 1, 0, 0],
    },
    grid: 0,
    z: 2,
    row: 0,
    col: 3,
};

const QUERY: &[u8] =
    b"service=WMTS&request=GetTile&version=1.0.0&layer=sea&style=grey&format=image/x-portable-pixmap&TileMatrixSet=tiny&TileMatrix=2&TileRow=000&TileCol=3&level=10";

/// Whether a query names this tile.
fn is_named(
    alloc: Global,
    catalogue: &Catalogue,
    text: &[u8],
    tile: &Address,
) -> Result<bool, AllocError>
    requires { IsValid catalogue.now }
{
    let query = read_query(alloc, catalogue, text)?;
    Ok(matches!(&query, Query::Tile(address) if *address == *tile))
}

/// Whether pairs miss a parameter.
fn is_missing(
    alloc: Global,
    catalogue: &Catalogue,
    pairs: &[(Words, Words)],
) -> Result<bool, AllocError>
    requires { IsValid catalogue.now }
{
    let query = read_pairs(alloc, catalogue, pairs)?;
    Ok(matches!(&query, Query::Refused(Code::MissingParameterValue, _)))
}

#[test]
fn a_query_names_a_tile_or_is_refused(rt: HostRuntime) -> Result<(), Fail> {
    let catalogue = sea_catalogue(rt.alloc())?;
    catalogue.validate()?;
    assert!(rt; is_named(rt.alloc(), &catalogue, QUERY, &TILE)?);
    assert!(rt; is_missing(rt.alloc(), &catalogue, &[])?);
    Ok(())
}
