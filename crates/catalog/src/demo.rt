//! The built-in catalogue, for a program that is given none.
ghost use Rattle.std.specs.Int.{w128};
ghost use Rattle.std.specs.Prelude.{◌≡◌, IfOk, pos, FitsSigned};
ghost use Rattle.catalog.specs.Demo.{demo, tiny, square, demo_layer};
ghost use Rattle.catalog.specs.Valid.{IsValid};

use crate::catalogue::{Catalogue, Policy};
use crate::grid::Grid;
use crate::layer::{Layer, Style};
use exact_ratio::{Items, Ratio, Words};
use matrix_geometry::Matrix;
use std::alloc::{AllocError, Global};

/// The SHA-256 of no bytes (FIPS 180-4).
const EMPTY_DIGEST: [u8; 32] = [
    0xe3, 0xb0, 0xc4, 0x42, 0x98, 0xfc, 0x1c, 0x14, 0x9a, 0xfb, 0xf4, 0xc8, 0x99, 0x6f, 0xb9, 0x24,
    0x27, 0xae, 0x41, 0xe4, 0x64, 0x9b, 0x93, 0x4c, 0xa4, 0x95, 0x99, 0x1b, 0x78, 0x52, 0xb8, 0x55,
];

fn square(span: Ratio, count: u32) -> Matrix
    ensures { result ≡ square span count }
{
    Matrix {
        span,
        left: 0,
        top: 16_000_000_000,
        tile_w: 2,
        tile_h: 2,
        cols: count,
        rows: count,
    }
}

/// A list of these values.
fn items<T: Drop, const N: usize>(alloc: Global, values: [T; N]) -> Result<Items<T>, AllocError>
    ensures { IfOk result (λ items. items ≡ values) }
{
    Ok(Items::of(Vec::from_array(alloc, values)?))
}

fn names(alloc: Global) -> Result<Items<Words>, AllocError>
    ensures { IfOk result (λ names. names ≡ tiny.names) }
{
    let zero = Words::new(alloc, b"0")?;
    let one = Words::new(alloc, b"1")?;
    let two = Words::new(alloc, b"2")?;
    items(alloc, [zero, one, two])
}

fn matrices(alloc: Global) -> Result<Items<Matrix>, AllocError>
    ensures { IfOk result (λ matrices. matrices ≡ tiny.matrices) }
{
    let zero = square(Ratio::whole(8), 1);
    let one = square(Ratio::whole(4), 2);
    let two = square(Ratio::whole(2), 4);
    items(alloc, [zero, one, two])
}

fn tiny(alloc: Global) -> Result<Grid, AllocError>
    ensures { IfOk result (λ g. g ≡ tiny) }
{
    let id = Words::new(alloc, b"tiny")?;
    let names = names(alloc)?;
    let matrices = matrices(alloc)?;
    Ok(Grid {
        id,
        names,
        matrices,
    })
}

fn styles(alloc: Global) -> Result<Items<Style>, AllocError>
    ensures { IfOk result (λ styles. styles ≡ demo_layer.styles) }
{
    let id = Words::new(alloc, b"grey")?;
    let breaks = Items::of(Vec::new(alloc));
    items(alloc, [Style { id, breaks }])
}

fn demo_layer(alloc: Global) -> Result<Layer, AllocError>
    ensures { IfOk result (λ l. l ≡ demo_layer) }
{
    let id = Words::new(alloc, b"demo")?;
    let grids = items(alloc, [0])?;
    let styles = styles(alloc)?;
    Ok(Layer {
        id,
        grids,
        styles,
        dims: Items::of(Vec::new(alloc)),
        meta_x: 1,
        meta_y: 1,
        gutter: 0,
        cell: 1,
        quota: None,
        ages: Items::of(Vec::new(alloc)),
    })
}

fn grids(alloc: Global) -> Result<Items<Grid>, AllocError>
    ensures { IfOk result (λ grids. grids ≡ demo.grids) }
{
    let grid = tiny(alloc)?;
    items(alloc, [grid])
}

fn layers(alloc: Global) -> Result<Items<Layer>, AllocError>
    ensures { IfOk result (λ layers. layers ≡ demo.layers) }
{
    let layer = demo_layer(alloc)?;
    items(alloc, [layer])
}

fn built_in(alloc: Global) -> Result<Catalogue, AllocError>
    ensures { IfOk result (λ c. c ≡ demo) }
{
    let grids = grids(alloc)?;
    let layers = layers(alloc)?;
    Ok(Catalogue {
        digest: EMPTY_DIGEST,
        source: 0,
        kept_limit: 64,
        cut_limit: 16,
        blob_bytes: 4096,
        quota: None,
        policy: Policy::Lru,
        grids,
        layers,
    })
}

impl Catalogue {
    /// The catalogue that is used where none is given: one grid `tiny` of three matrices, and one grey layer `demo`.
    /// `AllocError` where memory runs out.
    pub fn demo(alloc: Global) -> Result<Catalogue, AllocError>
        ensures demo { IfOk result (λ c. c ≡ demo) }
        ensures valid { IfOk result (λ c. IsValid c) }
    {
        built_in(alloc)
    }
}
