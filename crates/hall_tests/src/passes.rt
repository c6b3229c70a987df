//! Passes that get, truncate and meet, one after the other and side by side.
ghost use Rattle.std.specs.Prelude.{◌<◌};
ghost use Rattle.catalog.specs.Demo.{demo};
ghost use Rattle.catalog.specs.LookUp.{IsTile};
ghost use Rattle.hall_tests.specs.Fit.{IsFit};

use crate::held::{Held, Stage};
use crate::pair::{Pair, counted, cut, got, is_kept_up, new_pair, refreshed};
use cabinet::Keeper;
use cabinet_chest::{CabinetChest, Counts};
use cache_access::Refreshed;
use cache_hall::Hall;
use fixtures::{GREY, first_tile};
use matrix_geometry::Address;
use source_render::Numbered;
use std::alloc::{AllocError, Global};
use std::sync::Wait;
use std::test::Fail;
use std::thread::{Threads, join};
use turnstile::Pass;

/// Whether a tile that one pass rendered is a hit for the other one, and is then counted and kept up.
fn is_hit_for_the_other<R: Wait, K: Keeper>(rt: &R, alloc: Global, pair: Pair<K>) -> bool
    requires a { IsFit pair.hall.turnstile pair.hall.catalogue pair.a }
    requires b { IsFit pair.hall.turnstile pair.hall.catalogue pair.b }
{
    let Pair { hall, mut a, mut b } = pair;
    let mut source = Numbered::new(0);
    let first = got(rt, alloc, &hall, &mut a, &mut source, &first_tile());
    hall.turnstile.meet(&mut a, &mut b);
    let second = got(rt, alloc, &hall, &mut b, &mut source, &first_tile());
    let counts = counted(rt, &hall, &mut b);
    let is_kept = is_kept_up(rt, &hall, &mut b);
    drop((hall, a, b));
    let expected = Counts {
        metatiles: 1,
        bytes: 23,
        cuts: 0,
    };
    first.is_some_and(|tile| !tile.hit && tile.number == 1)
        && second.is_some_and(|tile| tile.hit && tile.number == 1)
        && counts == expected
        && is_kept
}

#[test]
fn a_tile_that_one_pass_rendered_is_a_hit_for_the_other(rt: HostRuntime) -> Result<(), Fail> {
    let Some(pair) = new_pair(rt.alloc())? else {
        return Err(Fail::from("no passes"));
    };
    assert!(rt; is_hit_for_the_other(&rt, rt.alloc(), pair));
    Ok(())
}

/// Whether a truncation by one pass is told to the other one where they meet, whose tile is then newer.
fn is_newer_after_a_cut<R: Wait, K: Keeper>(rt: &R, alloc: Global, pair: Pair<K>) -> bool
    requires a { IsFit pair.hall.turnstile pair.hall.catalogue pair.a }
    requires b { IsFit pair.hall.turnstile pair.hall.catalogue pair.b }
{
    let Pair { hall, mut a, mut b } = pair;
    let mut source = Numbered::new(0);
    let first = got(rt, alloc, &hall, &mut a, &mut source, &first_tile());
    let number = cut(rt, alloc, &hall, &mut a);
    hall.turnstile.meet(&mut a, &mut b);
    let seen = hall.turnstile.seen(&b);
    let tile = got(rt, alloc, &hall, &mut b, &mut source, &first_tile());
    drop((hall, a, b));
    first.is_some()
        && number == Some(2)
        && seen == 2
        && tile.is_some_and(|tile| !tile.hit && tile.number == 3)
}

#[test]
fn a_tile_after_a_truncation_is_newer(rt: HostRuntime) -> Result<(), Fail> {
    let Some(pair) = new_pair(rt.alloc())? else {
        return Err(Fail::from("no passes"));
    };
    assert!(rt; is_newer_after_a_cut(&rt, rt.alloc(), pair));
    Ok(())
}

/// Whether a seed renders a metatile once, and a reseed once more, which a get then hits.
fn is_rendered_anew<R: Wait, K: Keeper>(rt: &R, alloc: Global, pair: Pair<K>) -> bool
    requires a { IsFit pair.hall.turnstile pair.hall.catalogue pair.a }
{
    let Pair { hall, mut a, .. } = pair;
    let mut source = Numbered::new(0);
    let first = refreshed(rt, alloc, &hall, &mut a, &mut source, false);
    let second = refreshed(rt, alloc, &hall, &mut a, &mut source, false);
    let forced = refreshed(rt, alloc, &hall, &mut a, &mut source, true);
    let tile = got(rt, alloc, &hall, &mut a, &mut source, &first_tile());
    drop((hall, a));
    first == Some(Refreshed::Made(1))
        && second == Some(Refreshed::AlreadyKept(1))
        && forced == Some(Refreshed::Made(2))
        && tile.is_some_and(|tile| tile.hit && tile.number == 2)
}

#[test]
fn a_seed_leaves_what_is_kept_and_a_reseed_renders_it_anew(rt: HostRuntime) -> Result<(), Fail> {
    let Some(pair) = new_pair(rt.alloc())? else {
        return Err(Fail::from("no passes"));
    };
    assert!(rt; is_rendered_anew(&rt, rt.alloc(), pair));
    Ok(())
}

/// A tile of zoom 1 in its first row; it has two columns.
fn tile_in_row(col: u32) -> Address
    requires { col < 2 }
    ensures { IsTile demo result }
{
    Address {
        theme: GREY,
        grid: 0,
        z: 1,
        row: 0,
        col,
    }
}

/// A stage for each of two threads.
fn new_stages(alloc: Global) -> Result<(Stage, Stage), AllocError> {
    let held = Stage::new(alloc)?;
    let beside = held.share()?;
    Ok((held, beside))
}

/// Gets a tile once the other render has begun, and tells when it was answered.
fn got_meanwhile<R: Wait, K: Keeper>(
    rt: &R,
    alloc: Global,
    hall: &Hall<K>,
    pass: Pass<CabinetChest<K>>,
    stage: Stage,
) -> bool
    requires fit { IsFit hall.now.turnstile hall.now.catalogue pass }
{
    let mut pass = pass;
    let mut source = Numbered::new(0);
    let has_begun = stage.wait_for(1);
    let tile = got(rt, alloc, hall, &mut pass, &mut source, &tile_in_row(1));
    stage.reach(2);
    has_begun && tile.is_some()
}

/// Gets a tile whose render is held, and says whether the other tile was answered meanwhile.
fn got_held<R: Wait, K: Keeper>(
    rt: &R,
    alloc: Global,
    hall: &Hall<K>,
    pass: Pass<CabinetChest<K>>,
    stage: Stage,
) -> bool
    requires fit { IsFit hall.now.turnstile hall.now.catalogue pass }
{
    let mut pass = pass;
    let mut source = Held {
        numbered: Numbered::new(0),
        stage,
        is_in_time: false,
    };
    let tile = got(rt, alloc, hall, &mut pass, &mut source, &tile_in_row(0));
    source.is_in_time && tile.is_some()
}

/// Whether a tile is answered while the render of another one is held, where two threads tell each other by these.
fn is_answered_by<R: Threads + Wait + Sync, K: Keeper + Send>(
    rt: &R,
    alloc: Global,
    pair: Pair<K>,
    held: Stage,
    beside: Stage,
) -> bool
    requires a { IsFit pair.hall.turnstile pair.hall.catalogue pair.a }
    requires b { IsFit pair.hall.turnstile pair.hall.catalogue pair.b }
{
    let Pair { hall, a, b } = pair;
    let shared = &hall;
    let (first, second) = join(
        rt,
        || -> bool
            requires { IsFit shared.now.turnstile shared.now.catalogue a }
        { got_held(rt, alloc, shared, a, held) },
        || -> bool
            requires { IsFit shared.now.turnstile shared.now.catalogue b }
        { got_meanwhile(rt, alloc, shared, b, beside) },
    );
    drop(hall);
    first && second
}

/// The same, where memory may run out for what the threads tell each other by.
fn is_answered_beside<R: Threads + Wait + Sync, K: Keeper + Send>(
    rt: &R,
    alloc: Global,
    pair: Pair<K>,
) -> Result<bool, AllocError>
    requires a { IsFit pair.hall.turnstile pair.hall.catalogue pair.a }
    requires b { IsFit pair.hall.turnstile pair.hall.catalogue pair.b }
{
    match new_stages(alloc) {
        Ok((held, beside)) => Ok(is_answered_by(rt, alloc, pair, held, beside)),
        Err(fault) => {
            drop(pair);
            Err(fault)
        }
    }
}

#[test]
fn a_render_is_held_outside_of_any_turn(rt: HostRuntime) -> Result<(), Fail> {
    let Some(pair) = new_pair(rt.alloc())? else {
        return Err(Fail::from("no passes"));
    };
    assert!(rt; is_answered_beside(&rt, rt.alloc(), pair)?);
    Ok(())
}
