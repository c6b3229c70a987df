//! The table of routes, and the reading of a path by it.
ghost use Rattle.std.specs.Option.{option_and_then};
ghost use Rattle.std.specs.Prelude.{◌≡◌, IfOk, IfSome, map};
ghost use Rattle.catalog.specs.Valid.{IsValid};
ghost use Rattle.wmts_kvp.specs.Reading.{IsOfCatalogue};
ghost use Rattle.wmts_rest.specs.Paths.{path_reading, segments_of, segments_reading};
ghost use Rattle.wmts_rest.specs.Routes.{route_at, routes};

use crate::route::Route;
use crate::segments::{are_segments, inside, segments_of, texts_of};
use crate::spelling::read_texts;
use catalog::Catalogue;
use matchit::{InsertError, Router};
use std::alloc::{AllocError, Global};
use std::marker::Model;
use std::str::from_utf8;
use wmts_kvp::Query;

/// The routes of the RESTful requests.
#[derive(Drop)]
pub struct RestTable {
    router: Router<Route>,
}

impl Model for RestTable {
    ghost use Rattle.std.specs.Prelude.{◌≡◌};
    ghost use Rattle.wmts_rest.specs.Routes.{routes};

    ghost Value = { Unit {0} };

    ghost view = { λ table. tt };

    ghost invariant = { λ table. table.router ≡ routes };
}

/// Reads segments. `AllocError` where memory runs out.
#[tactic(auto, unfolding(crate::specs::Paths::segments_reading), using(crate::proofs::Pairs::six_texts))]
pub fn read_segments(
    alloc: Global,
    catalogue: &Catalogue,
    segments: &[&[u8]],
) -> Result<Option<Query>, AllocError>
    requires { IsValid catalogue.now }
    ensures reading { IfOk result (λ q. q ≡ segments_reading catalogue.now (map (λ s. s.now) segments.now)) }
    ensures tile { IfOk result (λ q. IfSome q (IsOfCatalogue catalogue.now)) }
{
    if !are_segments(segments) {
        return Ok(None);
    }
    let texts = texts_of(alloc, segments)?;
    read_texts(alloc, catalogue, texts.as_slice())
}

/// Reads a path that may be a tile's. `AllocError` where memory runs out.
fn read_tile(alloc: Global, catalogue: &Catalogue, path: &[u8]) -> Result<Option<Query>, AllocError>
    requires { IsValid catalogue.now }
    ensures reading { IfOk result (λ q. q ≡ option_and_then (segments_reading catalogue.now) (segments_of path.now)) }
    ensures tile { IfOk result (λ q. IfSome q (IsOfCatalogue catalogue.now)) }
{
    match inside(path) {
        Some(inside) => {
            let segments = segments_of(alloc, inside)?;
            read_segments(alloc, catalogue, segments.as_slice())
        }
        None => Ok(None),
    }
}

/// A router with both routes.
fn router(alloc: Global) -> Result<Router<Route>, InsertError>
    ensures { IfOk result (λ router. router ≡ routes) }
{
    let mut router = Router::new(alloc);
    router.insert("/rest/wmts/WMTSCapabilities.xml", Route::Capabilities)?;
    router.insert("/rest/wmts/{*segments}", Route::Tile)?;
    Ok(router)
}

/// The route that a path takes.
fn route_at(router: &Router<Route>, path: &str) -> Option<Route>
    requires { router.now ≡ routes }
    ensures { result ≡ route_at path.now }
{
    match router.at(path) {
        Ok(found) => {
            let route = found.value;
            Some(*route)
        }
        Err(_) => None,
    }
}

impl RestTable {
    /// A table of all routes. `AllocError` where memory runs out.
    pub fn new(alloc: Global) -> Result<RestTable, AllocError> {
        match router(alloc) {
            Ok(router) => Ok(RestTable { router }),
            Err(_) => Err(AllocError),
        }
    }

    /// Reads what a path asks for, the part of a request's target before its `?`: `None` where the path is neither that of
    /// the capabilities nor of a tile. `AllocError` where memory runs out.
    pub fn read_path(
        &self,
        alloc: Global,
        catalogue: &Catalogue,
        path: &[u8],
    ) -> Result<Option<Query>, AllocError>
        requires { IsValid catalogue.now }
        ensures reading { IfOk result (λ q. q ≡ path_reading catalogue.now path.now) }
        ensures tile { IfOk result (λ q. IfSome q (IsOfCatalogue catalogue.now)) }
    {
        let Ok(text) = from_utf8(path) else {
            return Ok(None);
        };
        match route_at(&self.router, text) {
            Some(Route::Capabilities) => Ok(Some(Query::Capabilities)),
            Some(Route::Tile) => read_tile(alloc, catalogue, path),
            None => Ok(None),
        }
    }
}
