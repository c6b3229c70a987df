//! The events of a request for a tile: an ask or a force, a render, and the end at which its ticket is spent.
ghost use Rattle.std.specs.Prelude.{ℕ, ◌≡◌, ◌≤◌, true, false, None, Option, Some};
ghost use Rattle.cache_core.specs.Advanced.{Advances};
ghost use Rattle.cache_core.specs.Begun.{Begins};
ghost use Rattle.cache_core.specs.Fits.{IsFit};
ghost use Rattle.cache_core.specs.Lasting.{Lasting};
ghost use Rattle.cache_core.specs.Shown.{IsIdle};
ghost use Rattle.cache_core.specs.Steps.{given_up, tile_at};
ghost use Rattle.catalog.specs.LookUp.{IsTile};
ghost use Rattle.matrix_geometry.specs.declared.address.Address.{Address};

use crate::actor::{Actor, Step};
use crate::laws::laws_of_lasting;
use crate::outcome::{Tile, TileOutcome};
use crate::render::{RenderFault, Sliced, paint};
use base::SharedText;
use cabinet::{Asked, Forced, Keeper, laws_of_rows};
use matrix_geometry::Address;
use metatile_locks::Ticket;
use raster_field::{block_of, laws_of_metatiles};
use source_render::Source;
use std::alloc::Global;

fn goes_on(actor: Actor) -> Step
    ensures actor { result.actor ≡ actor }
    ensures outcome { result.outcome ≡ None }
{
    Step {
        actor,
        outcome: None,
    }
}

fn ends(outcome: TileOutcome) -> Step
    ensures actor { result.actor ≡ Actor.Idle }
    ensures outcome { result.outcome ≡ Some outcome }
{
    Step {
        actor: Actor::Idle,
        outcome: Some(outcome),
    }
}

fn hit(number: u64, bytes: SharedText) -> Step
    ensures actor { result.actor ≡ Actor.Idle }
    ensures outcome { result.outcome ≡ Some (TileOutcome.Tile (tile_at true number bytes)) }
{
    ends(TileOutcome::Tile(Tile {
        hit: true,
        number,
        bytes,
    }))
}

fn ask<C: Keeper>(alloc: Global, cabinet: &mut C, address: &Address) -> Step
    requires { IsTile (C.state cabinet.old).catalogue address.now }
    ensures begins { Begins (C.faults cabinet.old) (C.faults cabinet.new) (C.state cabinet.old) address.now false result (C.state cabinet.new) }
    ensures lasts { Lasting (C.outlasts cabinet.old cabinet.new) (C.state cabinet.old) (C.state cabinet.new) }
{
    cabinet.known();
    match cabinet.ask(alloc, address) {
        Err(_) => ends(TileOutcome::NoMemory),
        Ok(Asked::Spent) => ends(TileOutcome::Spent),
        Ok(Asked::Busy(_)) => goes_on(Actor::Waiting(*address, false)),
        Ok(Asked::Ticket(ticket)) => goes_on(Actor::Holding(ticket, *address)),
        Ok(Asked::Hit(number, bytes)) => hit(number, bytes),
    }
}

fn force<C: Keeper>(alloc: Global, cabinet: &mut C, address: &Address) -> Step
    requires { IsTile (C.state cabinet.old).catalogue address.now }
    ensures begins { Begins (C.faults cabinet.old) (C.faults cabinet.new) (C.state cabinet.old) address.now true result (C.state cabinet.new) }
    ensures lasts { Lasting (C.outlasts cabinet.old cabinet.new) (C.state cabinet.old) (C.state cabinet.new) }
{
    laws_of_rows();
    cabinet.known();
    let meta = block_of(cabinet.catalogue(), address);
    match cabinet.force(alloc, &meta) {
        Err(_) => ends(TileOutcome::NoMemory),
        Ok(Forced::Spent) => ends(TileOutcome::Spent),
        Ok(Forced::Busy(_)) => goes_on(Actor::Waiting(*address, true)),
        Ok(Forced::Ticket(ticket)) => goes_on(Actor::Holding(ticket, *address)),
    }
}

/// Asks for a tile, or forces a render of its metatile, as the first event of a request.
pub fn begin<C: Keeper>(alloc: Global, cabinet: &mut C, address: &Address, with_force: bool) -> Step
    requires { IsTile (C.state cabinet.old).catalogue address.now }
    ensures begins { Begins (C.faults cabinet.old) (C.faults cabinet.new) (C.state cabinet.old) address.now with_force result (C.state cabinet.new) }
    ensures lasts { Lasting (C.outlasts cabinet.old cabinet.new) (C.state cabinet.old) (C.state cabinet.new) }
{
    if with_force {
        return force(alloc, cabinet, address);
    }
    ask(alloc, cabinet, address)
}

/// Asks again, or forces again.
fn ask_again<C: Keeper>(alloc: Global, cabinet: &mut C, address: &Address, with_force: bool) -> Step
    requires { IsTile (C.state cabinet.old).catalogue address.now }
    ensures advances { (told : Option ℕ) (n : ℕ) → Advances told n n (C.faults cabinet.old) (C.faults cabinet.new) (C.state cabinet.old) (Actor.Waiting address.now with_force) result (C.state cabinet.new) }
    ensures lasts { Lasting (C.outlasts cabinet.old cabinet.new) (C.state cabinet.old) (C.state cabinet.new) }
{
    begin(alloc, cabinet, address, with_force)
}

/// Hands in the blob of a render, and answers its tile.
fn hand_in<C: Keeper>(cabinet: &mut C, ticket: Ticket, blob: SharedText, tile: Tile) -> Step
    requires { (a : Address) × IsFit (C.state cabinet.old).catalogue a (Actor.Rendered ticket blob tile) }
    ensures advances { (told : Option ℕ) (n : ℕ) → Advances told n n (C.faults cabinet.old) (C.faults cabinet.new) (C.state cabinet.old) (Actor.Rendered ticket blob tile) result (C.state cabinet.new) }
    ensures lasts { Lasting (C.outlasts cabinet.old cabinet.new) (C.state cabinet.old) (C.state cabinet.new) }
{
    laws_of_metatiles();
    cabinet.known();
    let _ = cabinet.finish(ticket, blob);
    ends(TileOutcome::Tile(tile))
}

/// Gives a ticket back at which the source failed.
fn give_back<C: Keeper>(cabinet: &mut C, ticket: Ticket) -> Step
    ensures advances { (told : Option ℕ) (n : ℕ) → Advances told n n (C.faults cabinet.old) (C.faults cabinet.new) (C.state cabinet.old) (Actor.Failed ticket) result (C.state cabinet.new) }
    ensures lasts { Lasting (C.outlasts cabinet.old cabinet.new) (C.state cabinet.old) (C.state cabinet.new) }
{
    cabinet.known();
    cabinet.abandon(ticket);
    ends(TileOutcome::SourceFailed)
}

/// Gives a ticket back where memory ran out.
fn run_out<C: Keeper>(cabinet: &mut C, ticket: Ticket, _address: &Address) -> Step
    ensures advances { (told : Option ℕ) (before after : ℕ) → before ≤ after → Advances told before after (C.faults cabinet.old) (C.faults cabinet.new) (C.state cabinet.old) (Actor.Holding ticket _address.now) result (C.state cabinet.new) }
    ensures lasts { Lasting (C.outlasts cabinet.old cabinet.new) (C.state cabinet.old) (C.state cabinet.new) }
{
    cabinet.known();
    cabinet.abandon(ticket);
    ends(TileOutcome::NoMemory)
}

/// Renders the blob of a ticket.
fn render<C: Keeper, S: Source>(
    alloc: Global,
    cabinet: &mut C,
    source: &mut S,
    ticket: Ticket,
    address: &Address,
) -> Step
    requires { IsFit (C.state cabinet.old).catalogue address.now (Actor.Holding ticket address.now) }
    ensures advances { Advances (S.told source.old) (S.faults source.old) (S.faults source.new) (C.faults cabinet.old) (C.faults cabinet.new) (C.state cabinet.old) (Actor.Holding ticket address.now) result (C.state cabinet.new) }
    ensures told { S.told source.new ≡ S.told source.old }
    ensures lasts { Lasting (C.outlasts cabinet.old cabinet.new) (C.state cabinet.old) (C.state cabinet.new) }
{
    laws_of_lasting::<C>();
    cabinet.known();
    match paint(alloc, cabinet.catalogue(), source, &ticket, address) {
        Ok(Sliced { blob, bytes }) => {
            let number = ticket.number();
            let tile = Tile {
                hit: false,
                number,
                bytes,
            };
            goes_on(Actor::Rendered(ticket, blob, tile))
        }
        Err(RenderFault::Source) => goes_on(Actor::Failed(ticket)),
        Err(RenderFault::Memory) => run_out(cabinet, ticket, address),
    }
}

/// Makes the next event of an actor. An idle one has none.
pub fn advance<C: Keeper, S: Source>(
    alloc: Global,
    cabinet: &mut C,
    source: &mut S,
    actor: Actor,
) -> Step
    requires busy { IsIdle actor → ⊥ }
    requires fits { (a : Address) × IsFit (C.state cabinet.old).catalogue a actor }
    ensures advances { Advances (S.told source.old) (S.faults source.old) (S.faults source.new) (C.faults cabinet.old) (C.faults cabinet.new) (C.state cabinet.old) actor result (C.state cabinet.new) }
    ensures told { S.told source.new ≡ S.told source.old }
    ensures lasts { Lasting (C.outlasts cabinet.old cabinet.new) (C.state cabinet.old) (C.state cabinet.new) }
{
    laws_of_lasting::<C>();
    match actor {
        Actor::Idle => goes_on(Actor::Idle),
        Actor::Waiting(address, with_force) => ask_again(alloc, cabinet, &address, with_force),
        Actor::Holding(ticket, address) => render(alloc, cabinet, source, ticket, &address),
        Actor::Rendered(ticket, blob, tile) => hand_in(cabinet, ticket, blob, tile),
        Actor::Failed(ticket) => give_back(cabinet, ticket),
    }
}

/// Ends a request without an outcome: a ticket that the actor holds is abandoned.
pub fn give_up<C: Keeper>(cabinet: &mut C, actor: Actor)
    ensures state { C.state cabinet.new ≡ given_up (C.state cabinet.old) actor }
    ensures faults { C.faults cabinet.new ≡ C.faults cabinet.old }
    ensures lasts { Lasting (C.outlasts cabinet.old cabinet.new) (C.state cabinet.old) (C.state cabinet.new) }
{
    laws_of_lasting::<C>();
    cabinet.known();
    match actor {
        Actor::Idle | Actor::Waiting(_, _) => {}
        Actor::Holding(ticket, _) | Actor::Failed(ticket) => cabinet.abandon(ticket),
        Actor::Rendered(ticket, _, _) => cabinet.abandon(ticket),
    }
}
