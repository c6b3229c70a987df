//! Tests of truncation_list.
ghost use Rattle.std.specs.Prelude.{IfOk, OnOk, unsigned_abs, ◌+◌, ◌<◌, ◌^◌, ◌≡◌, ◌≤◌};
ghost use Rattle.matrix_geometry.specs.Limits.{IsWithinLimits};
ghost use Rattle.truncation_list.specs.Covers.{IsWithinReach};
ghost use Rattle.truncation_list.specs.Purge.{IsAbove, empty_book};

use exact_ratio::{Decimal, Ratio};
use fixtures::{CORNER, GREY};
use matrix_geometry::{Address, Box9, Corner, Filter, Matrix, Range, Size};
use std::alloc::{AllocError, Global};
use std::test::Fail;
use truncation_list::{Block, Cover, CutList, contains, covers, hits};

const ANY: Filter = Filter {
    style: None,
    dims: [None; 4],
};

/// All of the layer.
const WHOLE: Cover = Cover {
    layer: 0,
    grid: 0,
    z_start: 0,
    z_stop: 2,
    bounds: None,
    filter: ANY,
};

/// All of the layer at zoom 0.
const FLAT: Cover = Cover { z_stop: 0, ..WHOLE };

/// Sixteen tiles of four units, from (0, 16) downwards.
fn matrix() -> Result<Matrix, Fail>
    ensures { IfOk result IsWithinLimits }
{
    let corner = Corner {
        x: Decimal::read(b"0")?,
        y: Decimal::read(b"16")?,
    };
    let tile = Size { w: 2, h: 2 };
    let size = Size { w: 4, h: 4 };
    Ok(Matrix::from_span(&Ratio::whole(2), &corner, tile, size)?)
}

/// Zoom 2, in a box of four units' height at the top.
fn boxed(max_x: i64) -> Cover
    requires { unsigned_abs max_x ≤ 10 ^ 17 }
    ensures { IsWithinReach result }
{
    Cover {
        z_start: 2,
        bounds: Some(Box9 {
            min_x: 0,
            min_y: 12_000_000_000,
            max_x,
            max_y: 16_000_000_000,
        }),
        ..WHOLE
    }
}

/// A block of six tiles at zoom 2, right of the corner.
fn block() -> Block {
    Block {
        theme: GREY,
        grid: 0,
        z: 2,
        tiles: Range {
            row_min: 0,
            row_max: 1,
            col_min: 1,
            col_max: 3,
        },
    }
}

/// A cover with the style 1 alone.
fn styled(cover: &Cover) -> Cover {
    let filter = Filter {
        style: Some(1),
        ..ANY
    };
    Cover { filter, ..*cover }
}

/// Whether the first cover contains the other one, and not the other way round.
fn is_wider(outer: &Cover, inner: &Cover) -> bool {
    contains(outer, inner) && !contains(inner, outer)
}

#[test]
fn a_cover_covers_tiles_and_hits_blocks(rt: HostRuntime) -> Result<(), Fail> {
    let m = matrix()?;
    let cover = boxed(4_000_003_999);
    assert!(rt; covers(&cover, &m, &CORNER));
    assert!(rt; !hits(&cover, &m, &block()));
    Ok(())
}

#[test]
fn a_cover_contains_covers(rt: HostRuntime) {
    let cover = boxed(4_000_003_999);
    assert!(rt; is_wider(&cover, &styled(&cover)));
    assert!(rt; contains(&WHOLE, &cover));
    assert!(rt; !contains(&FLAT, &cover));
}

/// Lists two cuts where there is none.
fn enter_both(
    alloc: Global,
    list: &mut CutList,
    first: u64,
    one: &Cover,
    second: u64,
    other: &Cover,
) -> Result<(), AllocError>
    requires none { list.old.book ≡ empty_book }
    requires rise { first < second }
    requires one { IsWithinReach one.now }
    requires other { IsWithinReach other.now }
    ensures { OnOk result (IsAbove (second + 1) list.new.book.cuts) }
{
    list.reserve(alloc, one)?;
    list.enter(first, one);
    list.reserve(alloc, other)?;
    list.enter(second, other);
    Ok(())
}

/// A list of two cuts, of which the box of the later one is wider.
fn narrow_and_wide(alloc: Global) -> Result<CutList, AllocError>
    ensures { IfOk result (λ list. IsAbove 4 list.book.cuts) }
{
    let mut list = CutList::new(alloc)?;
    let (narrow, wide) = (boxed(4_000_000_000), boxed(4_000_004_000));
    enter_both(alloc, &mut list, 2, &narrow, 3, &wide)?;
    Ok(list)
}

/// Adds the cut of all of the layer, under number 4.
fn cut_whole(alloc: Global, list: &mut CutList) -> Result<(), AllocError>
    requires { IsAbove 4 list.old.book.cuts }
{
    list.reserve(alloc, &WHOLE)?;
    list.add(4, &WHOLE, Some(1));
    Ok(())
}

/// Whether a list has one cut, of this number and cover.
fn has_only(list: &CutList, number: u64, cover: &Cover) -> bool {
    list.count() == 1 && list.cut_at(0) == (number, *cover)
}

#[test]
fn a_cut_takes_the_place_of_those_that_it_contains(rt: HostRuntime) -> Result<(), Fail> {
    let mut list = narrow_and_wide(rt.alloc())?;
    assert!(rt; list.full(&FLAT, Some(1), 1) && !list.full(&FLAT, Some(1), 2));
    assert!(rt; !list.full(&WHOLE, Some(1), 1));
    cut_whole(rt.alloc(), &mut list)?;
    assert!(rt; has_only(&list, 4, &WHOLE));
    assert!(rt; list.floor() == 0);
    Ok(())
}

/// A list of two cuts, of which the box of the earlier one is wider.
fn wide_and_narrow(alloc: Global) -> Result<CutList, AllocError> {
    let mut list = CutList::new(alloc)?;
    let (narrow, wide) = (boxed(4_000_000_000), boxed(4_000_004_000));
    enter_both(alloc, &mut list, 5, &wide, 7, &narrow)?;
    Ok(list)
}

/// The number of the last cut of the tile in this column of the first row.
fn last_at(list: &CutList, m: &Matrix, col: u32) -> Option<u64>
    requires { IsWithinLimits m.now }
{
    list.last(m, &Address { col, ..CORNER })
}

/// How many cuts a purge leaves, and the floor after it.
fn purged(list: &mut CutList, least: Option<u64>) -> (u32, u64) {
    list.purge(least);
    (list.count(), list.floor())
}

#[test]
fn the_floor_rises_to_what_is_purged_by_number(rt: HostRuntime) -> Result<(), Fail> {
    let m = matrix()?;
    let mut list = wide_and_narrow(rt.alloc())?;
    for (col, expected) in [(0, Some(7)), (1, Some(5)), (2, None)] {
        assert!(rt; last_at(&list, &m, col) == expected);
    }
    for (least, expected) in [(Some(5), (2, 0)), (Some(6), (1, 5)), (None, (0, 7))] {
        assert!(rt; purged(&mut list, least) == expected);
    }
    list.raise(3);
    assert!(rt; list.seen() == 7);
    Ok(())
}
