//! Tests of ppm_slice.
ghost use Rattle.catalog.specs.Valid.{IsValid};

use crate::renders::rendered;
use catalog::{Catalogue, Layer};
use exact_ratio::Items;
use fixtures::{first_tile, sea_catalogue};
use matrix_geometry::Theme;
use metatile_plan::MetaKey;
use ppm_slice::tile_of;
use raster_field::{blob_size, block_of};
use source_render::Numbered;
use std::alloc::{AllocError, Global};
use std::test::Fail;

#[test]
fn a_tile_is_its_part_of_the_blob(rt: HostRuntime) -> Result<(), Fail> {
    let catalogue = Catalogue::demo(rt.alloc())?;
    let tile = first_tile();
    let meta = block_of(&catalogue, &tile);
    let size = blob_size(&catalogue, &meta);
    let blob = vec![in rt.alloc(); 7; size as usize]?;
    assert!(rt; tile_of(&catalogue, blob.as_slice(), &tile) == [7; 23].as_slice());
    Ok(())
}

/// Layers with more behind them.
fn joined(mut layers: Vec<Layer>, more: Items<Layer>) -> Result<Vec<Layer>, AllocError> {
    for layer in more.into_vec() {
        layers.push(layer)?;
    }
    Ok(layers)
}

/// The demo catalogue with a layer 1 of two dimensions, that has metatiles of 2 by 2 tiles and a gutter of one pixel.
fn with_gutter(alloc: Global) -> Result<Catalogue, AllocError> {
    let sea = sea_catalogue(alloc)?;
    let mut catalogue = Catalogue::demo(alloc)?;
    let layers = joined(catalogue.layers.into_vec(), sea.layers)?;
    catalogue.layers = Items::of(layers);
    Ok(catalogue)
}

/// The metatile of layer 1 at the corner of matrix 2, with value 1 in its second dimension.
const CORNER: MetaKey = MetaKey {
    theme: Theme {
        layer: 1,
        style: 0,
        dims: [0, 1, 0, 0],
    },
    grid: 0,
    z: 2,
    row: 0,
    col: 0,
};

// Its window has 5 by 5 pixels, of which the last column and row are cut away. The first value is 7 + 31 + 131 * 2 + 17 + 13,
// less 256; a pixel further to the right has 34 more, and one further down 26.
const CORNER_BLOB: &[u8] =
    b"P6\n2 2\n255\n\x4a\x4a\x4a\x6c\x6c\x6c\x64\x64\x64\x86\x86\x86P6\n2 2\n255\n\x8e\x8e\x8e\xb0\xb0\xb0\xa8\xa8\xa8\xca\xca\xcaP6\n2 2\n255\n\x7e\x7e\x7e\xa0\xa0\xa0\x98\x98\x98\xba\xba\xbaP6\n2 2\n255\n\xc2\xc2\xc2\xe4\xe4\xe4\xdc\xdc\xdc\xfe\xfe\xfe";

/// Whether a source renders the corner to this blob.
fn renders_corner(alloc: Global, catalogue: &Catalogue, expected: &[u8]) -> Result<bool, Fail>
    requires { IsValid catalogue.now }
{
    let mut source = Numbered::new(0);
    match rendered(alloc, catalogue, &mut source, &CORNER)? {
        Some(blob) => Ok(blob.as_slice() == expected),
        None => Ok(false),
    }
}

#[test]
fn a_blob_has_the_texts_of_its_tiles_row_by_row(rt: HostRuntime) -> Result<(), Fail> {
    let catalogue = with_gutter(rt.alloc())?;
    catalogue.validate()?;
    assert!(rt; renders_corner(rt.alloc(), &catalogue, CORNER_BLOB)?);
    Ok(())
}
