//! Tests of config_text.
use catalog::{Catalogue, Layer};
use config_text::read_catalogue;
use std::alloc::Global;
use std::test::Fail;

const DEMO: &[u8] = br#"{"source":0,"keptLimit":64,"cutLimit":16,"blobBytes":4096,"policy":"lru",
"grids":[{"id":"tiny","corner":["0","16"],"matrices":[
{"id":"0","span":"8","tile":[2,2],"size":[1,1]},
{"id":"1","span":"4","tile":[2,2],"size":[2,2]},
{"id":"2","span":"2","tile":[2,2],"size":[4,4]}]}],
"layers":[{"id":"demo","grids":["tiny"],"styles":[{"id":"grey","breaks":[]}],"meta":[1,1],"gutter":0,"cell":1}]}
"#;

/// What sha256sum prints of the text.
const DIGEST: [u8; 32] = [
    0x84, 0x33, 0x21, 0x60, 0x0a, 0xfc, 0x53, 0xb2, 0xf7, 0x88, 0x5d, 0x98, 0xdb, 0x90, 0x3c, 0xae,
    0xeb, 0x1f, 0xe7, 0x6f, 0x32, 0x7b, 0x13, 0x2b, 0x30, 0x15, 0x3c, 0x4e, 0x90, 0x5d, 0x09, 0x8e,
];

/// What a text is read as.
fn read(alloc: Global, text: &[u8]) -> Result<Catalogue, Fail> {
    match read_catalogue(alloc, text) {
        Ok(catalogue) => Ok(catalogue),
        Err(_) => Err(Fail::from("a fault")),
    }
}

fn has_digest(catalogue: &Catalogue, digest: &[u8; 32]) -> bool {
    catalogue.digest == *digest
}

fn has_limits_of(read: &Catalogue, demo: &Catalogue) -> bool {
    read.kept_limit == demo.kept_limit
        && read.cut_limit == demo.cut_limit
        && read.blob_bytes == demo.blob_bytes
}

fn has_expiry_of(read: &Catalogue, demo: &Catalogue) -> bool {
    read.quota == demo.quota && read.policy == demo.policy
}

fn has_grid_of(read: &Catalogue, demo: &Catalogue) -> bool {
    match (read.grids.get(0), demo.grids.get(0)) {
        (Some(grid), Some(tiny)) => grid.matrices.as_slice() == tiny.matrices.as_slice(),
        _ => false,
    }
}

fn has_members(layer: &Layer) -> bool {
    layer.grids.len() == 1 && layer.styles.len() == 1 && layer.dims.len() == 0
}

fn has_metatiles(layer: &Layer) -> bool {
    layer.meta_x == 1 && layer.meta_y == 1 && layer.gutter == 0 && layer.cell == 1
}

fn has_layer(read: &Catalogue) -> bool {
    match read.layers.get(0) {
        Some(layer) => {
            layer.id.bytes() == b"demo".as_slice() && has_members(layer) && has_metatiles(layer)
        }
        None => false,
    }
}

#[test]
fn the_text_of_the_demo_gives_the_demo(rt: HostRuntime) -> Result<(), Fail> {
    let demo = Catalogue::demo(rt.alloc())?;
    let read = read(rt.alloc(), DEMO)?;
    assert!(rt; has_digest(&read, &DIGEST));
    assert!(rt; has_limits_of(&read, &demo));
    assert!(rt; has_expiry_of(&read, &demo));
    assert!(rt; has_grid_of(&read, &demo));
    assert!(rt; has_layer(&read));
    Ok(())
}

#[test]
fn no_text_gives_the_demo(rt: HostRuntime) -> Result<(), Fail> {
    let demo = Catalogue::demo(rt.alloc())?;
    let read = read(rt.alloc(), b"")?;
    assert!(rt; has_digest(&read, &demo.digest));
    Ok(())
}

/// A layer with limits of age from zoom 1 to 2 and from zoom 5 on.
const AGES: &[u8] = br#"{"blobBytes":1,"grids":[
{"id":"one","corner":["0","16"],"matrices":[{"id":"0","span":"8","tile":[2,2],"size":[1,1]}]}],
"layers":[{"id":"a","grids":["one"],"styles":[{"id":"grey","breaks":[]}],"ages":[[1,10],[3,0],[5,4294967295]]}]}
"#;

/// The limit of age at a zoom of the first layer; 0 where there is no layer.
fn age_limit(catalogue: &Catalogue, z: u32) -> Option<u32> {
    match catalogue.layers.get(0) {
        Some(layer) => layer.age_limit(z),
        None => Some(0),
    }
}

#[test]
fn the_last_age_up_to_a_zoom_counts(rt: HostRuntime) -> Result<(), Fail> {
    let read = read(rt.alloc(), AGES)?;
    for (z, limit) in [
        (0, None),
        (1, Some(10)),
        (2, Some(10)),
        (3, None),
        (4, None),
        (5, Some(4_294_967_295)),
        (29, Some(4_294_967_295)),
    ] {
        assert!(rt; age_limit(&read, z) == limit);
    }
    Ok(())
}
