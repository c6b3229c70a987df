//! The reading of a path by which a tile is asked for as a picture.
ghost use Rattle.std.specs.Option.{option_and_then};
ghost use Rattle.std.specs.Prelude.{◌≡◌, IfOk, IfSome};
ghost use Rattle.catalog.specs.Valid.{IsValid};
ghost use Rattle.wmts_kvp.specs.Reading.{IsOfCatalogue};
ghost use Rattle.wmts_rest.specs.Paths.{picture_reading, picture_segments_of, segments_reading};

use crate::segments::{inside_picture, segments_of};
use crate::table::read_segments;
use catalog::Catalogue;
use std::alloc::{AllocError, Global};
use std::str::from_utf8;
use wmts_kvp::Query;

/// Reads a path of bytes that are UTF-8. `AllocError` where memory runs out.
fn read_inside(
    alloc: Global,
    catalogue: &Catalogue,
    path: &[u8],
) -> Result<Option<Query>, AllocError>
    requires { IsValid catalogue.now }
    ensures reading { IfOk result (λ q. q ≡ option_and_then (segments_reading catalogue.now) (picture_segments_of path.now)) }
    ensures tile { IfOk result (λ q. IfSome q (IsOfCatalogue catalogue.now)) }
{
    match inside_picture(path) {
        Some(inside) => {
            let segments = segments_of(alloc, inside)?;
            read_segments(alloc, catalogue, segments.as_slice())
        }
        None => Ok(None),
    }
}

/// Reads what a path asks for, the part of a request's target before its `?`: the tile of its segments, or their refusal, as at the path of
/// the RESTful interface; `None` where the path isn't one of a tile as a picture. `AllocError` where memory runs out.
#[tactic(auto, using(crate::proofs::SecondPaths::unread, crate::proofs::SecondPaths::read))]
pub fn read_picture(
    alloc: Global,
    catalogue: &Catalogue,
    path: &[u8],
) -> Result<Option<Query>, AllocError>
    requires { IsValid catalogue.now }
    ensures reading { IfOk result (λ q. q ≡ picture_reading catalogue.now path.now) }
    ensures tile { IfOk result (λ q. IfSome q (IsOfCatalogue catalogue.now)) }
{
    match from_utf8(path) {
        Ok(_) => read_inside(alloc, catalogue, path),
        Err(_) => Ok(None),
    }
}
