//! The table of paths: where a message leads by its method and path, and what it asks for there.
ghost use Rattle.std.specs.List.{prefix_len};
ghost use Rattle.std.specs.Prelude.{◌≡◌, ◌≤◌, ◌==◌, codes, length, not, option_copied, IfOk, IfSome};
ghost use Rattle.catalog.specs.Valid.{IsValid};
ghost use Rattle.catalog.specs.declared.catalogue.Catalogue.{Catalogue};
ghost use Rattle.job_forms.specs.Cover.{cover_of};
ghost use Rattle.tile_requests.specs.Requests.{IsOf};
ghost use Rattle.tile_requests.specs.Routes.{path_of, query_of, by_ending, by_get, by_post, request_of, request_or_none, truncation_of, request_for, spelling_at};
ghost use Rattle.tile_requests.specs.Shown.{shown_message};
ghost use Rattle.wmts_kvp.specs.Reading.{IsOfCatalogue, query_reading};
ghost use Rattle.wmts_rest.specs.Paths.{before, path_reading, picture_reading};

use crate::message_ref::MessageRef;
use crate::request::Request;
use crate::spelling::Spelling;
use catalog::Catalogue;
use http_wire::Method;
use job_forms::{JobFault, read_cover};
use std::alloc::{AllocError, Global};
use wmts_kvp::{Query, read_query};
use wmts_rest::{RestTable, read_picture};

/// How many bytes the path of a target has.
fn path_len(target: &[u8]) -> usize
    ensures value { result ≡ prefix_len (λ b. not (b == 63)) target.now }
    ensures within { result ≤ length target.now }
{
    let mut count = 0;
    for byte in target {
        if *byte == b'?' {
            return count;
        }
        count += 1;
    }
    count
}

/// The path of a target: what stands before its first `?`.
pub fn path_of(target: &[u8]) -> &[u8]
    ensures { result.now ≡ path_of target.now }
{
    let (path, _) = target.split_at(path_len(target));
    path
}

/// The query of a target; it is empty where there is no `?`.
fn query_of(target: &[u8]) -> &[u8]
    ensures { result.now ≡ query_of target.now }
{
    let (_, behind) = target.split_at(path_len(target));
    match behind {
        [] => behind,
        [_, query @ ..] => query,
    }
}

/// What the reading of a query asks for.
fn request_of(query: Query) -> Request
    ensures value { result ≡ request_of query }
    ensures tile { (c : Catalogue) → IsOfCatalogue c query → IsOf c result }
{
    match query {
        Query::Tile(address) => Request::Tile(address),
        Query::Capabilities => Request::Capabilities,
        Query::Refused(code, locator) => Request::Refused(code, locator),
    }
}

/// What the reading of a path asks for.
fn request_or_none(reading: Option<Query>) -> Request
    ensures value { result ≡ request_or_none reading }
    ensures tile { (c : Catalogue) → IfSome reading (IsOfCatalogue c) → IsOf c result }
{
    match reading {
        None => Request::NotFound,
        Some(query) => request_of(query),
    }
}

/// What the reading of a cover asks for. `AllocError` where memory runs out.
fn truncation_of(alloc: Global, catalogue: &Catalogue, text: &[u8]) -> Result<Request, AllocError>
    requires { IsValid catalogue.now }
    ensures value { IfOk result (λ r. r ≡ truncation_of (cover_of catalogue.now text.now)) }
    ensures cover { IfOk result (λ r. IsOf catalogue.now r) }
{
    match read_cover(alloc, catalogue, text) {
        Ok(cover) => Ok(Request::Truncation(cover)),
        Err(JobFault::OutOfMemory) => Err(AllocError),
        Err(fault) => Ok(Request::Unformed(fault)),
    }
}

/// What is asked for at a path that takes GET.
fn by_get(method: Method, asked: Request) -> Request
    ensures value { result ≡ by_get method asked }
    ensures of { (c : Catalogue) → IsOf c asked → IsOf c result }
{
    match method {
        Method::Get => asked,
        Method::Post | Method::Delete | Method::Other => Request::WrongMethod,
    }
}

/// What is asked for at a path that takes POST.
fn by_post(method: Method, asked: Request) -> Request
    ensures value { result ≡ by_post method asked }
    ensures of { (c : Catalogue) → IsOf c asked → IsOf c result }
{
    match method {
        Method::Post => asked,
        Method::Get | Method::Delete | Method::Other => Request::WrongMethod,
    }
}

/// What is asked for by the query of a target. `AllocError` where memory runs out.
fn by_query(
    alloc: Global,
    catalogue: &Catalogue,
    message: &MessageRef<'_>,
) -> Result<Request, AllocError>
    requires { IsValid catalogue.now }
    ensures value { IfOk result (λ r. r ≡ by_get message.now.method (request_of (query_reading catalogue.now (query_of message.now.target.now)))) }
    ensures of { IfOk result (λ r. IsOf catalogue.now r) }
{
    match message.method {
        Method::Get => {
            let query = read_query(alloc, catalogue, query_of(message.target))?;
            Ok(request_of(query))
        }
        Method::Post | Method::Delete | Method::Other => Ok(Request::WrongMethod),
    }
}

/// What is asked for by the path of a target. `AllocError` where memory runs out.
fn by_path(
    alloc: Global,
    catalogue: &Catalogue,
    rest: &RestTable,
    message: &MessageRef<'_>,
) -> Result<Request, AllocError>
    requires { IsValid catalogue.now }
    ensures value { IfOk result (λ r. r ≡ by_get message.now.method (request_or_none (path_reading catalogue.now (path_of message.now.target.now)))) }
    ensures of { IfOk result (λ r. IsOf catalogue.now r) }
{
    match message.method {
        Method::Get => {
            let reading = rest.read_path(alloc, catalogue, path_of(message.target))?;
            Ok(request_or_none(reading))
        }
        Method::Post | Method::Delete | Method::Other => Ok(Request::WrongMethod),
    }
}

/// What is asked for by the path of a picture. `AllocError` where memory runs out.
fn by_picture(
    alloc: Global,
    catalogue: &Catalogue,
    message: &MessageRef<'_>,
) -> Result<Request, AllocError>
    requires { IsValid catalogue.now }
    ensures value { IfOk result (λ r. r ≡ by_get message.now.method (request_or_none (picture_reading catalogue.now (path_of message.now.target.now)))) }
    ensures of { IfOk result (λ r. IsOf catalogue.now r) }
{
    match message.method {
        Method::Get => {
            let reading = read_picture(alloc, catalogue, path_of(message.target))?;
            Ok(request_or_none(reading))
        }
        Method::Post | Method::Delete | Method::Other => Ok(Request::WrongMethod),
    }
}

/// What is asked for by the cover of a body. `AllocError` where memory runs out.
fn by_cover(
    alloc: Global,
    catalogue: &Catalogue,
    message: &MessageRef<'_>,
) -> Result<Request, AllocError>
    requires { IsValid catalogue.now }
    ensures value { IfOk result (λ r. r ≡ by_post message.now.method (truncation_of (cover_of catalogue.now message.now.body.now))) }
    ensures of { IfOk result (λ r. IsOf catalogue.now r) }
{
    match message.method {
        Method::Post => truncation_of(alloc, catalogue, message.body),
        Method::Get | Method::Delete | Method::Other => Ok(Request::WrongMethod),
    }
}

/// What a message asks for, by the table of paths. `AllocError` where memory runs out.
#[tactic(auto, unfolding(crate::specs::Routes::request_at))]
pub fn read_request(
    alloc: Global,
    catalogue: &Catalogue,
    rest: &RestTable,
    message: &MessageRef<'_>,
) -> Result<Request, AllocError>
    requires { IsValid catalogue.now }
    ensures value { IfOk result (λ r. r ≡ request_for catalogue.now (shown_message message.now)) }
    ensures of { IfOk result (λ r. IsOf catalogue.now r) }
{
    let path = path_of(message.target);
    if path == b"/wmts".as_slice() {
        return by_query(alloc, catalogue, message);
    }
    if path.starts_with(b"/rest/wmts/") {
        return by_path(alloc, catalogue, rest, message);
    }
    if path.starts_with(b"/png/") {
        return by_picture(alloc, catalogue, message);
    }
    if path == b"/usage".as_slice() {
        return Ok(by_get(message.method, Request::Usage));
    }
    if path == b"/truncate".as_slice() {
        return by_cover(alloc, catalogue, message);
    }
    if path == b"/expire".as_slice() {
        return Ok(by_post(message.method, Request::Expiry));
    }
    Ok(Request::NotFound)
}

/// What stands before `.png`, where a path ends so.
fn before_png(path: &[u8]) -> Option<&[u8]>
    ensures { option_copied result ≡ before (codes ".png") path.now }
{
    path.strip_suffix(b".png")
}

/// How a composite is spelt in the response to a message for this path.
fn by_ending(path: &[u8]) -> Spelling
    ensures { result ≡ by_ending path.now }
{
    match before_png(path) {
        Some(_) => Spelling::Png,
        None => Spelling::Ppm,
    }
}

/// How a tile is spelt in the response to a message for this target.
#[tactic(auto, unfolding(crate::specs::Routes::spelling_at))]
pub fn spelling_at(target: &[u8]) -> Spelling
    ensures { result ≡ spelling_at target.now }
{
    let path = path_of(target);
    if path.starts_with(b"/png/") {
        return Spelling::Png;
    }
    if path.starts_with(b"/composites/") {
        return by_ending(path);
    }
    Spelling::Ppm
}
