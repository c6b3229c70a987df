//! Requests that aren't for a tile: each has its outcome without a render.
ghost use Rattle.std.specs.Prelude.{◌≡◌, None};
ghost use Rattle.cache_access.specs.Turned.{Goes};
ghost use Rattle.catalog.specs.Valid.{IsValid};
ghost use Rattle.served_covers.specs.OfCatalogue.{IsCoverOf};
ghost use Rattle.tile_requests.specs.Requests.{IsOf, tile_of};
ghost use Rattle.tile_requests.specs.Served.{ServesAtOnce};
ghost use Rattle.tile_requests.specs.declared.request.Request.TheVariants as request;

use crate::dropped::dropped_text;
use crate::outcome::{Outcome, Plain};
use crate::request::Request;
use crate::usage::usage_text;
use cabinet::{CutReply, Expired};
use cache_access::Access;
use std::alloc::Global;
use truncation_list::Cover;

/// What is kept, as text.
fn usage<A: Access>(access: &A, alloc: Global, cache: &mut A::Cache) -> Outcome
    requires reaches { A.reaches access.now cache.old }
    requires valid { IsValid (A.catalogue access.now cache.old) }
    ensures serves { ServesAtOnce (A.gains access.now) (A.catalogue access.now cache.old) request.Usage cache.old cache.new result }
    ensures goes { Goes (A.catalogue access.now) (A.reaches access.now) (A.owes access.now) (A.lasts access.now) cache.old cache.new }
    ensures still { A.sound access.now cache.old → A.sound access.now cache.new }
    ensures rests { A.rests access.now cache.old → A.rests access.now cache.new }
{
    match usage_text(access, alloc, cache) {
        Ok(text) => Outcome::Usage(text),
        Err(_) => Outcome::Plain(Plain::NoMemory),
    }
}

/// A truncation.
fn truncation<A: Access>(access: &A, alloc: Global, cache: &mut A::Cache, cover: &Cover) -> Outcome
    requires reaches { A.reaches access.now cache.old }
    requires cover { IsCoverOf (A.catalogue access.now cache.old) cover.now }
    ensures serves { ServesAtOnce (A.gains access.now) (A.catalogue access.now cache.old) (request.Truncation cover.now) cache.old cache.new result }
    ensures goes { Goes (A.catalogue access.now) (A.reaches access.now) (A.owes access.now) (A.lasts access.now) cache.old cache.new }
    ensures still { A.sound access.now cache.old → A.sound access.now cache.new }
    ensures rests { A.rests access.now cache.old → A.rests access.now cache.new }
{
    match access.cut(alloc, cache, cover) {
        Ok(CutReply::Done(number)) => Outcome::Cut(number),
        Ok(CutReply::DiskFault(_, _)) => Outcome::Plain(Plain::DiskFault),
        Ok(CutReply::Full) => Outcome::Plain(Plain::CutsFull),
        Ok(CutReply::Spent) => Outcome::Plain(Plain::CutSpent),
        Err(_) => Outcome::Plain(Plain::NoMemory),
    }
}

/// An expiry.
fn expiry<A: Access>(access: &A, alloc: Global, cache: &mut A::Cache) -> Outcome
    requires reaches { A.reaches access.now cache.old }
    ensures serves { ServesAtOnce (A.gains access.now) (A.catalogue access.now cache.old) request.Expiry cache.old cache.new result }
    ensures goes { Goes (A.catalogue access.now) (A.reaches access.now) (A.owes access.now) (A.lasts access.now) cache.old cache.new }
    ensures still { A.sound access.now cache.old → A.sound access.now cache.new }
    ensures rests { A.rests access.now cache.old → A.rests access.now cache.new }
{
    match access.expire(cache) {
        Expired::Within => Outcome::Plain(Plain::Within),
        Expired::DiskFault(_, _) => Outcome::Plain(Plain::DiskFault),
        Expired::Dropped(meta) => match dropped_text(alloc, access.catalogue(cache), &meta) {
            Ok(text) => Outcome::Dropped(text),
            Err(_) => Outcome::Plain(Plain::NoMemory),
        },
    }
}

/// Answers a request that isn't for a tile. If memory runs out, its outcome says so.
pub fn immediate<A: Access>(
    access: &A,
    alloc: Global,
    cache: &mut A::Cache,
    request: Request,
) -> Outcome
    requires reaches { A.reaches access.now cache.old }
    requires valid { IsValid (A.catalogue access.now cache.old) }
    requires of { IsOf (A.catalogue access.now cache.old) request }
    requires other { tile_of request ≡ None }
    ensures serves { ServesAtOnce (A.gains access.now) (A.catalogue access.now cache.old) request cache.old cache.new result }
    ensures goes { Goes (A.catalogue access.now) (A.reaches access.now) (A.owes access.now) (A.lasts access.now) cache.old cache.new }
    ensures still { A.sound access.now cache.old → A.sound access.now cache.new }
    ensures rests { A.rests access.now cache.old → A.rests access.now cache.new }
{
    match request {
        Request::Tile(_) => unreachable!(),
        Request::Capabilities => Outcome::Document,
        Request::Refused(code, locator) => Outcome::Refused(code, locator),
        Request::NotFound => Outcome::Plain(Plain::NotFound),
        Request::WrongMethod => Outcome::Plain(Plain::WrongMethod),
        Request::Usage => usage(access, alloc, cache),
        Request::Truncation(cover) => truncation(access, alloc, cache, &cover),
        Request::Unformed(fault) => Outcome::Unformed(fault),
        Request::Expiry => expiry(access, alloc, cache),
    }
}
