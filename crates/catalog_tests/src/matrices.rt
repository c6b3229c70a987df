//! Tests of matrix_geometry.
ghost use Rattle.std.specs.Prelude.{IfOk};
ghost use Rattle.matrix_geometry.specs.Limits.{IsWithinLimits};

use exact_ratio::{Decimal, DecimalFault, Ratio};
use matrix_geometry::{
    Box9, Corner, Filter, GridFault, Matrix, Range, Size, Theme, TileBox, coordinate,
};
use std::test::Fail;

fn corner(x: &[u8], y: &[u8]) -> Result<Corner, DecimalFault> {
    Ok(Corner {
        x: Decimal::read(x)?,
        y: Decimal::read(y)?,
    })
}

fn square(side: u32) -> Size {
    Size { w: side, h: side }
}

/// Sixteen tiles of four units, from (0, 16) downwards.
fn tiny() -> Result<Matrix, Fail>
    ensures { IfOk result IsWithinLimits }
{
    let origin = corner(b"0", b"16")?;
    Ok(Matrix::from_span(&Ratio::whole(2), &origin, square(2), square(4))?)
}

#[test]
fn a_coordinate_is_a_number_of_billionths(rt: HostRuntime) -> Result<(), Fail> {
    let cases: [(&[u8], Option<i64>); 3] = [
        (b"-4.000004", Some(-4_000_004_000)),
        (b"100000000.1", None),
        (b"0.0000000001", None),
    ];
    for (text, expected) in cases {
        let decimal = Decimal::read(text)?;
        assert!(rt; coordinate(&decimal) == expected);
    }
    Ok(())
}

// A pixel has 0.28 mm, so the span is 559082264.0287178 * 0.00028.
#[test]
fn a_scale_gives_its_span(rt: HostRuntime) -> Result<(), Fail> {
    let scale = Decimal::read(b"559082264.0287178")?;
    let meters = Decimal::read(b"1")?;
    let origin = corner(b"-20037508.3427892", b"20037508.3427892")?;
    let matrix = Matrix::from_scale(&scale, &meters, &origin, square(256), square(1))?;
    let span = Ratio::new(19_567_879_241_005_123, 125_000_000_000).ok_or("no span")?;
    assert!(rt; matrix.span == span);
    assert!(rt; matrix.left == -20_037_508_342_789_200);
    Ok(())
}

/// Whether a matrix with square tiles, and as many of them each way, is refused for this fault.
fn is_refused(span: &Ratio, origin: &Corner, tile: u32, size: u32, fault: GridFault) -> bool {
    Matrix::from_span(span, origin, square(tile), square(size)) == Err(fault)
}

#[test]
fn the_first_number_out_of_its_limits_is_told(rt: HostRuntime) -> Result<(), Fail> {
    let near = corner(b"0", b"100000000")?;
    let far = corner(b"0", b"100000000.1")?;
    let fine = corner(b"0.0000000001", b"0")?;
    let zero = Ratio::whole(0);
    let tiny = Ratio::new(1, 1_000_000_000_000_000_001).ok_or("no span")?;
    let wide = Ratio::whole(1_000_000_001);
    assert!(rt; is_refused(&zero, &far, 0, 0, GridFault::CoordinateTooLarge));
    assert!(rt; is_refused(&zero, &fine, 0, 0, GridFault::CoordinateTooLarge));
    assert!(rt; is_refused(&zero, &near, 0, 0, GridFault::ZeroSpan));
    assert!(rt; is_refused(&tiny, &near, 0, 0, GridFault::NumberTooFine));
    assert!(rt; is_refused(&wide, &near, 513, 0, GridFault::TileSize));
    assert!(rt; is_refused(&wide, &near, 1, 0, GridFault::TooManyTiles));
    assert!(rt; is_refused(&wide, &near, 1, 1, GridFault::ExtentTooLarge));
    Ok(())
}

/// The edges of the second tile of four in the first row of four.
fn second_of_four(matrix: &Matrix) -> Option<TileBox>
    requires { IsWithinLimits matrix.now }
{
    if matrix.rows == 4 && matrix.cols == 4 {
        return Some(matrix.tile_box(0, 1));
    }
    None
}

fn has_edges(tile: &TileBox, left: i128, right: i128, upper: i128, lower: i128) -> bool {
    tile.left == Ratio::whole(left)
        && tile.right == Ratio::whole(right)
        && tile.upper == Ratio::whole(upper)
        && tile.lower == Ratio::whole(lower)
}

#[test]
fn a_tile_has_four_edges(rt: HostRuntime) -> Result<(), Fail> {
    let tile = second_of_four(&tiny()?).ok_or("another matrix")?;
    assert!(rt; has_edges(&tile, 4, 8, 16, 12));
    Ok(())
}

fn columns(first: u32, last: u32) -> Option<Range> {
    Some(Range {
        row_min: 0,
        row_max: 0,
        col_min: first,
        col_max: last,
    })
}

#[test]
fn a_millionth_of_a_tile_decides(rt: HostRuntime) -> Result<(), Fail> {
    let matrix = tiny()?;
    for (min_x, max_x, expected) in [
        (0, 4_000_000_000, columns(0, 0)),
        (0, 4_000_004_000, columns(0, 1)),
        (0, 4_000_003_999, columns(0, 0)),
        (-8_000_000_000, -4_000_000_000, None),
    ] {
        let bounds = Box9 {
            min_x,
            min_y: 12_000_000_000,
            max_x,
            max_y: 16_000_000_000,
        };
        assert!(rt; matrix.tiles_of_box(&bounds) == expected);
    }
    Ok(())
}

#[test]
fn a_filter_admits_what_it_wants(rt: HostRuntime) {
    let filter = Filter {
        style: Some(1),
        dims: [None, Some(2), None, None],
    };
    let theme = Theme {
        layer: 0,
        style: 1,
        dims: [5, 2, 0, 0],
    };
    assert!(rt; filter.admits(&theme));
}
