//! Any request, answered.
ghost use Rattle.std.specs.Prelude.{◌≡◌, ◌≤◌, None, Some};
ghost use Rattle.cache_access.specs.Turned.{Goes};
ghost use Rattle.catalog.specs.Valid.{IsValid};
ghost use Rattle.source_render.specs.Renders.{StaysGiven, renders};
ghost use Rattle.tile_requests.specs.Requests.{IsOf, tile_of};
ghost use Rattle.tile_requests.specs.Served.{ServesRequest};

use crate::at_once::immediate;
use crate::outcome::Outcome;
use crate::request::{Request, outcome_of_get};
use cache_access::{Access, get};
use source_render::Source;
use std::alloc::Global;

/// Answers a request: a tile is asked for, and rendered and handed in if it isn't kept. If memory runs out, the outcome says so.
#[tactic(auto, using(crate::proofs::AtOnceSourced::at_once_sourced, source_render::proofs::Staying::stays_itself))]
pub fn answer<A: Access, S: Source>(
    access: &A,
    alloc: Global,
    cache: &mut A::Cache,
    source: &mut S,
    request: Request,
) -> Outcome
    requires reaches { A.reaches access.now cache.old }
    requires rests { A.rests access.now cache.old }
    requires valid { IsValid (A.catalogue access.now cache.old) }
    requires of { IsOf (A.catalogue access.now cache.old) request }
    requires source { A.owes access.now cache.old → S.told source.old ≡ Some (A.catalogue access.now cache.old).source }
    ensures serves { ServesRequest (A.gains access.now) (A.catalogue access.now cache.old) (A.sound access.now cache.old × (S.told source.old ≡ Some (A.catalogue access.now cache.old).source)) (A.seen access.now cache.old) (renders (S.faults source.old) (S.gave source.old)) (renders (S.faults source.new) (S.gave source.new)) request cache.old cache.new result }
    ensures goes { Goes (A.catalogue access.now) (A.reaches access.now) (A.owes access.now) (A.lasts access.now) cache.old cache.new }
    ensures still { S.told source.old ≡ Some (A.catalogue access.now cache.old).source → A.sound access.now cache.old → A.sound access.now cache.new }
    ensures rests { A.rests access.now cache.new }
    ensures later { S.faults source.old ≤ S.faults source.new }
    ensures told { S.told source.new ≡ S.told source.old }
    ensures grows { StaysGiven (S.gave source.old) (S.gave source.new) }
    ensures other { tile_of request ≡ None → source.new ≡ source.old }
{
    match request {
        Request::Tile(address) => outcome_of_get(get(access, alloc, cache, source, &address)),
        other => immediate(access, alloc, cache, other),
    }
}
