//! Tests of cache_core.
ghost use Rattle.std.specs.Prelude.{◌≡◌};
ghost use Rattle.cache_core.specs.Fits.{IsFit};
ghost use Rattle.catalog.specs.Demo.{demo};
ghost use Rattle.catalog.specs.LookUp.{IsTile};
ghost use Rattle.matrix_geometry.specs.declared.address.Address.{Address};

use crate::cabinets::new;
use cabinet::Keeper;
use cache_core::{Actor, Step, Tile, advance, begin, give_up};
use fixtures::first_tile;
use matrix_geometry::Address;
use source_render::Numbered;
use std::alloc::Global;
use std::test::Fail;

/// The tile under number 1. The first grey is 7 + 17 * 4 + 13 * 4.
const TEXT: &[u8] = b"P6\n2 2\n255\n\x7f\x7f\x7f\x07\x07\x07\xe7\xe7\xe7\x6f\x6f\x6f";

/// The actor of a request that begins.
fn begun<C: Keeper>(alloc: Global, cabinet: &mut C, tile: &Address) -> Actor
    requires { IsTile (C.state cabinet.old).catalogue tile.now }
    ensures fits { IsFit (C.state cabinet.old).catalogue tile.now result }
    ensures catalogue { (C.state cabinet.new).catalogue ≡ (C.state cabinet.old).catalogue }
{
    let Step { actor, outcome: _ } = begin(alloc, cabinet, tile, false);
    actor
}

/// The actor after its render, where it holds a ticket; any other one is given up.
fn rendered<C: Keeper>(alloc: Global, cabinet: &mut C, actor: Actor) -> Actor
    requires { (a : Address) × IsFit (C.state cabinet.old).catalogue a actor }
{
    let Actor::Holding(ticket, address) = actor else {
        give_up(cabinet, actor);
        return Actor::Idle;
    };
    let mut source = Numbered::new(0);
    let held = Actor::Holding(ticket, address);
    let Step { actor, outcome: _ } = advance(alloc, cabinet, &mut source, held);
    actor
}

/// Whether a tile is the one of a first render.
fn is_first(tile: &Tile, text: &[u8]) -> bool {
    tile.number == 1 && !tile.hit && tile.bytes.bytes() == text
}

/// Renders the first tile, and gives it up: whether it was the one of a first render.
fn renders_first<C: Keeper>(alloc: Global, cabinet: &mut C) -> bool
    requires { (C.state cabinet.old).catalogue ≡ demo }
{
    let begun = begun(alloc, cabinet, &first_tile());
    let actor = rendered(alloc, cabinet, begun);
    let done = match &actor {
        Actor::Rendered(_, _, tile) => is_first(tile, TEXT),
        _ => false,
    };
    give_up(cabinet, actor);
    done
}

#[test]
fn a_tile_is_rendered_and_given_up(rt: HostRuntime) -> Result<(), Fail> {
    let mut cabinet = new(rt.alloc())?;
    let done = renders_first(rt.alloc(), &mut cabinet);
    let kept = cabinet.kept();
    drop(cabinet);
    assert!(rt; done);
    assert!(rt; kept == 0);
    Ok(())
}
