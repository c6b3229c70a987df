//! Which events of a request for a tile are made in the line that starts it.
ghost use Rattle.std.specs.Prelude.{◌≡◌, true};
ghost use Rattle.cache_core.specs.Fits.{IsFit};
ghost use Rattle.cache_core.specs.Lasting.{Lasting};
ghost use Rattle.cache_core.specs.Shown.{IsIdle};
ghost use Rattle.catalog.specs.LookUp.{IsTile};
ghost use Rattle.matrix_geometry.specs.declared.address.Address.{Address};
ghost use Rattle.tile_requests.specs.Events.{BeginsByLine, GoesFurther};
ghost use Rattle.tile_requests.specs.Requests.{is_at_work};

use crate::request::Mode;
use cabinet::Keeper;
use cache_core::{Actor, Step, advance, begin, laws_of_lasting};
use matrix_geometry::Address;
use source_render::Source;
use std::alloc::Global;

/// Whether an actor has work that waits for no other.
fn is_at_work(actor: &Actor) -> bool
    ensures at_work { result ≡ is_at_work actor.now }
    ensures busy { result ≡ true → IsIdle actor.now → ⊥ }
{
    match actor {
        Actor::Idle | Actor::Waiting(_, _) => false,
        Actor::Holding(_, _) | Actor::Rendered(_, _, _) | Actor::Failed(_) => true,
    }
}

/// The next event of an actor that has work.
fn further<C: Keeper, S: Source>(alloc: Global, cabinet: &mut C, source: &mut S, step: Step) -> Step
    requires { (a : Address) × IsFit (C.state cabinet.old).catalogue a step.actor }
    ensures goes { GoesFurther (S.told source.old) (S.faults source.old) (S.faults source.new) (C.faults cabinet.old) (C.faults cabinet.new) (C.state cabinet.old) step result (C.state cabinet.new) }
    ensures told { S.told source.new ≡ S.told source.old }
    ensures lasts { Lasting (C.outlasts cabinet.old cabinet.new) (C.state cabinet.old) (C.state cabinet.new) }
{
    laws_of_lasting::<C>();
    if !is_at_work(&step.actor) {
        return step;
    }
    let Step { actor, outcome: _ } = step;
    advance(alloc, cabinet, source, actor)
}

/// The events of the line that asks for a tile.
pub fn events<C: Keeper, S: Source>(
    alloc: Global,
    cabinet: &mut C,
    source: &mut S,
    address: &Address,
    mode: Mode,
) -> Step
    requires { IsTile (C.state cabinet.old).catalogue address.now }
    ensures opens { BeginsByLine (S.told source.old) (S.faults source.old) (S.faults source.new) (C.faults cabinet.old) (C.faults cabinet.new) (C.state cabinet.old) address.now mode result (C.state cabinet.new) }
    ensures told { S.told source.new ≡ S.told source.old }
    ensures lasts { Lasting (C.outlasts cabinet.old cabinet.new) (C.state cabinet.old) (C.state cabinet.new) }
{
    laws_of_lasting::<C>();
    match mode {
        Mode::Asks => begin(alloc, cabinet, address, false),
        Mode::Forces => begin(alloc, cabinet, address, true),
        Mode::Gets => {
            let asked = begin(alloc, cabinet, address, false);
            let rendered = further(alloc, cabinet, source, asked);
            further(alloc, cabinet, source, rendered)
        }
    }
}
