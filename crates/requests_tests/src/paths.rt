//! Tests of wmts_rest.
ghost use Rattle.catalog.specs.Valid.{IsValid};

use catalog::Catalogue;
use fixtures::sea_catalogue;
use matrix_geometry::{Address, Theme};
use std::alloc::{AllocError, Global};
use std::test::Fail;
use wmts_kvp::Query;
use wmts_rest::{RestTable, read_picture};

const TILE: Address = Address {
    theme: Theme {
        layer: 0,
        style: 0,
        dims: [1, 1, 0, 0],
    },
    grid: 0,
    z: 2,
    row: 1,
    col: 3,
};

/// Whether a path names this tile.
fn is_named(
    alloc: Global,
    table: &RestTable,
    catalogue: &Catalogue,
    path: &[u8],
    tile: &Address,
) -> Result<bool, AllocError>
    requires { IsValid catalogue.now }
{
    let query = table.read_path(alloc, catalogue, path)?;
    Ok(matches!(&query, Some(Query::Tile(address)) if *address == *tile))
}

/// Whether a path names nothing.
fn is_nothing(
    alloc: Global,
    table: &RestTable,
    catalogue: &Catalogue,
    path: &[u8],
) -> Result<bool, AllocError>
    requires { IsValid catalogue.now }
{
    Ok(table.read_path(alloc, catalogue, path)?.is_none())
}

/// Whether a path that is text names the tile, and one that is none names nothing.
fn are_read(alloc: Global, catalogue: &Catalogue) -> Result<bool, AllocError>
    requires { IsValid catalogue.now }
{
    let table = RestTable::new(alloc)?;
    let path = b"/rest/wmts/s%65a/grey/b%3Ac/10/tiny/2/1/3.ppm";
    let is_tile = is_named(alloc, &table, catalogue, path, &TILE);
    let broken = b"/rest/wmts/none/\xFF/tiny/2/1/1.ppm";
    let is_none = is_nothing(alloc, &table, catalogue, broken);
    drop(table);
    let (is_tile, is_none) = (is_tile?, is_none?);
    Ok(is_tile && is_none)
}

#[test]
fn a_path_names_a_tile_where_it_is_text(rt: HostRuntime) -> Result<(), Fail> {
    let catalogue = sea_catalogue(rt.alloc())?;
    catalogue.validate()?;
    assert!(rt; are_read(rt.alloc(), &catalogue)?);
    Ok(())
}

/// Whether a picture's path names the tile, and that of the tile itself is no path of a picture.
fn are_read_as_pictures(alloc: Global, catalogue: &Catalogue) -> Result<bool, AllocError>
    requires { IsValid catalogue.now }
{
    let named = read_picture(alloc, catalogue, b"/png/s%65a/grey/b%3Ac/10/tiny/2/1/3.png")?;
    let is_tile = matches!(&named, Some(Query::Tile(address)) if *address == TILE);
    drop(named);
    let other = read_picture(alloc, catalogue, b"/rest/wmts/sea/grey/b/10/tiny/2/1/3.ppm")?;
    let is_none = other.is_none();
    drop(other);
    Ok(is_tile && is_none)
}

#[test]
fn a_path_of_a_picture_names_its_tile(rt: HostRuntime) -> Result<(), Fail> {
    let catalogue = sea_catalogue(rt.alloc())?;
    catalogue.validate()?;
    assert!(rt; are_read_as_pictures(rt.alloc(), &catalogue)?);
    Ok(())
}
