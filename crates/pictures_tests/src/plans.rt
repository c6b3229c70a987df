//! Tests of metatile_plan.
ghost use Rattle.std.specs.Prelude.{IfOk, ◌≡◌};
ghost use Rattle.matrix_geometry.specs.Limits.{IsWithinLimits};

use exact_ratio::{Decimal, Ratio};
use matrix_geometry::{Address, Corner, Matrix, Range, Size, Theme};
use metatile_plan::{
    Factors, Span, Window, blob_len, meta_of, same_meta, tile_len, tile_span_in_blob, tiles_of,
    window,
};
use std::test::Fail;

const FACTORS: Factors = Factors {
    x: 2,
    y: 2,
    gutter: 1,
};

fn tile(row: u32, col: u32) -> Address
    ensures { (result.row ≡ row) × (result.col ≡ col) }
{
    Address {
        theme: Theme {
            layer: 1,
            style: 0,
            dims: [0, 1, 0, 0],
        },
        grid: 0,
        z: 2,
        row,
        col,
    }
}

/// 4 by 4 tiles of 2 by 2 pixels.
fn matrix() -> Result<Matrix, Fail>
    ensures { IfOk result (λ m. IsWithinLimits m × (m.rows ≡ 4) × (m.cols ≡ 4) × (m.tile_w ≡ 2) × (m.tile_h ≡ 2)) }
{
    let corner = Corner {
        x: Decimal::read(b"0")?,
        y: Decimal::read(b"16")?,
    };
    let tile = Size { w: 2, h: 2 };
    let size = Size { w: 4, h: 4 };
    let m = Matrix::from_span(&Ratio::whole(2), &corner, tile, size)?;
    if m.rows == 4 && m.cols == 4 && m.tile_w == 2 && m.tile_h == 2 {
        return Ok(m);
    }
    Err(Fail::from("another matrix"))
}

#[test]
fn a_gutter_is_cut_at_the_corner_of_the_matrix(rt: HostRuntime) -> Result<(), Fail> {
    let m = matrix()?;
    let meta = meta_of(&tile(1, 1), &FACTORS);
    assert!(rt; same_meta(&meta, &meta_of(&tile(0, 0), &FACTORS)));
    let block = Range {
        row_min: 0,
        row_max: 1,
        col_min: 0,
        col_max: 1,
    };
    assert!(rt; tiles_of(&meta, &FACTORS, &m) == block);
    let pixels = Window {
        meta,
        x: 0,
        y: 0,
        width: 5,
        height: 5,
    };
    assert!(rt; window(&meta, &FACTORS, &m) == pixels);
    Ok(())
}

#[test]
fn a_blob_has_its_tiles_row_by_row(rt: HostRuntime) -> Result<(), Fail> {
    let m = matrix()?;
    let meta = meta_of(&tile(2, 2), &FACTORS);
    let pixels = Window {
        meta,
        x: 3,
        y: 3,
        width: 5,
        height: 5,
    };
    assert!(rt; window(&meta, &FACTORS, &m) == pixels);
    assert!(rt; tile_len(&m) == 23);
    assert!(rt; blob_len(&meta, &FACTORS, &m) == 92);
    let span = Span {
        start: 46,
        length: 23,
    };
    assert!(rt; tile_span_in_blob(&meta, &FACTORS, &m, 3, 2) == span);
    Ok(())
}
