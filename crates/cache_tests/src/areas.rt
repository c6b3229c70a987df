//! Tests of kept_areas.
use fixtures::GREY;
use kept_areas::KeptAreas;
use metatile_plan::MetaKey;
use std::alloc::{AllocError, Global};
use std::test::Fail;

/// How many metatiles are put.
const COUNT: u32 = 3_000;

/// The metatiles of three matrices of 64 by 64 in an order that jumps about, none of them twice.
fn scattered(i: u32) -> MetaKey {
    let place = i.wrapping_mul(2_654_435_761) % 4_096;
    MetaKey {
        theme: GREY,
        grid: 0,
        z: place % 3,
        row: place / 64,
        col: place % 64,
    }
}

/// All of them, each under its place in that order, from 1.
fn filled(alloc: Global) -> Result<KeptAreas, AllocError> {
    let mut areas = KeptAreas::new(alloc);
    for i in 0..COUNT {
        areas.reserve(1)?;
        areas.put(&scattered(i), u64::from(i) + 1);
    }
    Ok(areas)
}

#[test]
fn a_metatile_is_found_where_it_is_looked_for_first(rt: HostRuntime) -> Result<(), Fail> {
    let mut areas = filled(rt.alloc())?;
    assert!(rt; areas.least_with(None) == Some(1));
    for i in 0..COUNT / 2 {
        areas.leave(&scattered(i));
    }
    assert!(rt; areas.least_with(None) == Some(1_501));
    assert!(rt; areas.strays() == 0);
    Ok(())
}
