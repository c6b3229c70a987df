//! A message of a session over a hall and a board, served to its outcome.
ghost use Rattle.std.specs.Prelude.{◌≡◌, ◌≤◌, Some, true};
ghost use Rattle.cache_hall.specs.Turned.{IsPassOf};
ghost use Rattle.catalog.specs.Valid.{IsValid};
ghost use Rattle.hall_sessions.specs.Requested.{ServesRequest};
ghost use Rattle.hall_sessions.specs.Served.{ServesOverHall};
ghost use Rattle.job_board.specs.Calls.{IsBoardPass};
ghost use Rattle.layer_recipes.specs.Books.{IsBookOf};
ghost use Rattle.source_render.specs.Renders.{StaysGiven, renders};
ghost use Rattle.tile_requests.specs.Requests.{IsOf};

use crate::composites::serve_composite;
use crate::world::World;
use cabinet::Keeper;
use cabinet_chest::CabinetChest;
use cache_hall::{Hall, Shared};
use composite_requests::read_composite_request;
use http_wire::Message;
use job_board::BoardPass;
use job_requests::{read_job_request, serve_job};
use source_render::Source;
use std::alloc::Global;
use std::sync::Wait;
use tile_requests::{MessageRef, Outcome, Plain, Request, answer, read_request};
use turnstile::Pass;

/// A request, served to its outcome.
fn serve_request<R: Wait, K: Keeper, S: Source>(
    rt: &R,
    alloc: Global,
    hall: &Hall<K>,
    pass: &mut Pass<CabinetChest<K>>,
    source: &mut S,
    request: Request,
) -> Outcome
    requires of { IsPassOf hall.now.turnstile.table hall.now.catalogue pass.old }
    requires valid { IsValid hall.now.catalogue }
    requires asks { IsOf hall.now.catalogue request }
    requires source { pass.old.told ≡ true → S.told source.old ≡ Some hall.now.catalogue.source }
    ensures serves { ServesRequest hall.now.catalogue (renders (S.faults source.old) (S.gave source.old)) (renders (S.faults source.new) (S.gave source.new)) request pass.old pass.new result }
    ensures of { IsPassOf hall.now.turnstile.table hall.now.catalogue pass.new }
    ensures later { S.faults source.old ≤ S.faults source.new }
    ensures told { S.told source.new ≡ S.told source.old }
    ensures grows { StaysGiven (S.gave source.old) (S.gave source.new) }
{
    answer(&Shared { rt, hall }, alloc, pass, source, request)
}

/// Serves a message: at the board if it is for jobs, else by a composition if it is for a composite, and else what it asks for by the table
/// of paths. Where memory runs out, its outcome says so.
pub fn serve<R: Wait, K: Keeper, S: Source>(
    rt: &R,
    alloc: Global,
    world: &World<K>,
    pass: &mut Pass<CabinetChest<K>>,
    board: &mut BoardPass,
    source: &mut S,
    message: &Message,
) -> Outcome
    requires of { IsPassOf world.now.hall.turnstile.table world.now.hall.catalogue pass.old }
    requires valid { IsValid world.now.hall.catalogue }
    requires source { pass.old.told ≡ true → S.told source.old ≡ Some world.now.hall.catalogue.source }
    requires board { IsBoardPass world.now.board.turnstile.table board.old }
    requires recipes { IsBookOf world.now.hall.catalogue world.now.recipes }
    ensures serves { ServesOverHall world.now.hall.catalogue world.now.recipes (renders (S.faults source.old) (S.gave source.old)) (renders (S.faults source.new) (S.gave source.new)) message.now pass.old pass.new board.old board.new result }
    ensures of { IsPassOf world.now.hall.turnstile.table world.now.hall.catalogue pass.new }
    ensures board { IsBoardPass world.now.board.turnstile.table board.new }
    ensures later { S.faults source.old ≤ S.faults source.new }
    ensures told { S.told source.new ≡ S.told source.old }
    ensures grows { StaysGiven (S.gave source.old) (S.gave source.new) }
{
    let parts = MessageRef::of(message);
    let catalogue = &world.hall.catalogue;
    let recipes = &world.recipes;
    match read_job_request(alloc, catalogue, &parts) {
        Err(_) => Outcome::Plain(Plain::NoMemory),
        Ok(Some(request)) => serve_job(rt, alloc, catalogue, &world.board, board, request),
        Ok(None) => match read_composite_request(alloc, catalogue, recipes, &parts) {
            Err(_) => Outcome::Plain(Plain::NoMemory),
            Ok(Some(request)) => {
                serve_composite(rt, alloc, &world.hall, recipes, pass, source, request)
            }
            Ok(None) => match read_request(alloc, catalogue, &world.tables.rest, &parts) {
                Err(_) => Outcome::Plain(Plain::NoMemory),
                Ok(request) => serve_request(rt, alloc, &world.hall, pass, source, request),
            },
        },
    }
}
