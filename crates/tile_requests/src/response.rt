//! The response to a request, by its outcome.
ghost use Rattle.std.specs.Prelude.{◌≡◌, ◌++◌, IfOk, OnErr, [], true};
ghost use Rattle.exception_report.specs.Report.{report_of};
ghost use Rattle.exception_report.specs.Status.{status_of};
ghost use Rattle.tile_png.specs.Reading.{png_of_tile};
ghost use Rattle.tile_requests.specs.Requests.{is_made, is_respelt};
ghost use Rattle.tile_requests.specs.Response.{bare, cut_text, fault_kind, fault_text, field_of, parts_of, pictured, plain_parts, png_parts, spelt, tile_parts, typed};
ghost use Rattle.tile_requests.specs.Shown.{body_text, headers_text, media_type_name, shown_parts};

use crate::numbers::push_number;
use crate::outcome::{Outcome, Plain};
use crate::parts::{Body, BodyHeaders, LentResponse, MediaType, TileHeaders};
use crate::spelling::Spelling;
use exception_report::{Code, Locator, report, status_of};
use job_forms::{JobFault, JobField};
use png_text::CrcTables;
use std::alloc::{AllocError, Global};
use tile_png::png_of_tile;

/// A body that lies elsewhere.
fn lend_response(status: u16, media_type: MediaType, body: &[u8]) -> LentResponse<'_>
    ensures { shown_parts result ≡ typed status (media_type_name media_type) body.now }
{
    LentResponse {
        status,
        media_type: Some(media_type),
        headers: BodyHeaders::Plain,
        body: Body::Borrowed(body),
    }
}

/// A body that was made for the response.
fn response_of<'a>(status: u16, media_type: MediaType, body: Vec<u8>) -> LentResponse<'a>
    ensures { shown_parts result ≡ typed status (media_type_name media_type) body.items }
{
    LentResponse {
        status,
        media_type: Some(media_type),
        headers: BodyHeaders::Plain,
        body: Body::Made(body),
    }
}

/// A status alone. It takes no memory.
pub fn bare<'a>(status: u16) -> LentResponse<'a>
    ensures { shown_parts result ≡ bare status }
{
    LentResponse {
        status,
        media_type: None,
        headers: BodyHeaders::Plain,
        body: Body::Borrowed(b""),
    }
}

/// A tile, or a picture of it, with these headers.
fn picture_response<'a>(
    media_type: MediaType,
    headers: BodyHeaders<'a>,
    body: Body<'a>,
) -> LentResponse<'a>
    ensures { shown_parts result ≡ pictured (media_type_name media_type) (headers_text headers.entry) (body_text body.entry) }
{
    LentResponse {
        status: 200,
        media_type: Some(media_type),
        headers,
        body,
    }
}

/// An encoded tile as PNG, or as it is where it is no pixmap. `AllocError` where memory runs out.
fn png<'a>(
    alloc: Global,
    tables: &CrcTables,
    headers: BodyHeaders<'a>,
    text: &'a [u8],
) -> Result<LentResponse<'a>, AllocError>
    ensures { IfOk result (λ p. shown_parts p ≡ png_parts (headers_text headers.entry) text.now (png_of_tile text.now)) }
{
    match png_of_tile(alloc, tables, text)? {
        Some(png) => Ok(picture_response(MediaType::Png, headers, Body::Made(png))),
        None => Ok(picture_response(MediaType::Ppm, headers, Body::Borrowed(text))),
    }
}

/// An encoded tile as it is to be spelt. `AllocError` where memory runs out for another spelling.
fn tile<'a>(
    alloc: Global,
    tables: &CrcTables,
    spelling: Spelling,
    headers: BodyHeaders<'a>,
    text: &'a [u8],
) -> Result<LentResponse<'a>, AllocError>
    ensures parts { IfOk result (λ p. shown_parts p ≡ tile_parts spelling (headers_text headers.entry) text.now) }
    ensures made { OnErr result (is_respelt spelling ≡ true) }
{
    match spelling {
        Spelling::Ppm => Ok(picture_response(MediaType::Ppm, headers, Body::Borrowed(text))),
        Spelling::Png => png(alloc, tables, headers, text),
    }
}

fn report_response<'a>(
    alloc: Global,
    code: Code,
    locator: &Locator,
) -> Result<LentResponse<'a>, AllocError>
    ensures { IfOk result (λ p. shown_parts p ≡ parts_of [] Spelling.Ppm (Outcome.Refused code locator.now)) }
{
    let body = report(alloc, code, locator)?;
    Ok(response_of(status_of(code), MediaType::Xml, body))
}

fn cut_response<'a>(alloc: Global, number: u64) -> Result<LentResponse<'a>, AllocError>
    ensures { IfOk result (λ p. shown_parts p ≡ parts_of [] Spelling.Ppm (Outcome.Cut number)) }
{
    let mut text = Vec::from_slice(alloc, b"{\"cut\":")?;
    push_number(&mut text, number)?;
    text.extend_from_slice(b"}\n")?;
    Ok(response_of(200, MediaType::Json, text))
}

/// The kind of a fault of a cover's text.
fn fault_kind(fault: JobFault) -> &'static [u8]
    ensures { result.now ≡ fault_kind fault }
{
    match fault {
        JobFault::NotJson => b"not json",
        JobFault::Missing(_) => b"missing",
        JobFault::Bad(_) => b"bad",
        JobFault::Limit(_) => b"limit",
        JobFault::OutOfMemory => b"out of memory",
    }
}

/// How a member is spelt.
fn spelt(field: JobField) -> &'static [u8]
    ensures { result.now ≡ spelt field }
{
    match field {
        JobField::Layer => b"Layer",
        JobField::Grid => b"Grid",
        JobField::ZoomStart => b"ZoomStart",
        JobField::ZoomStop => b"ZoomStop",
        JobField::Bounds => b"Bounds",
        JobField::Format => b"Format",
        JobField::Style => b"Style",
        JobField::Dimensions => b"Dimensions",
        JobField::Kind => b"Kind",
        JobField::Threads => b"Threads",
    }
}

/// The member of a fault; empty where it names none.
fn field_of(fault: JobFault) -> &'static [u8]
    ensures { result.now ≡ field_of fault }
{
    match fault {
        JobFault::Missing(field) | JobFault::Bad(field) | JobFault::Limit(field) => spelt(field),
        JobFault::NotJson | JobFault::OutOfMemory => b"",
    }
}

fn fault_text(alloc: Global, kind: &[u8], field: &[u8]) -> Result<Vec<u8>, AllocError>
    ensures { IfOk result (λ v. v.items ≡ fault_text kind.now field.now) }
{
    let mut text = Vec::from_slice(alloc, b"{\"fault\":\"")?;
    text.extend_from_slice(kind)?;
    text.extend_from_slice(b"\",\"field\":\"")?;
    text.extend_from_slice(field)?;
    text.extend_from_slice(b"\"}\n")?;
    Ok(text)
}

fn form_response<'a>(alloc: Global, fault: JobFault) -> Result<LentResponse<'a>, AllocError>
    ensures { IfOk result (λ p. shown_parts p ≡ parts_of [] Spelling.Ppm (Outcome.Unformed fault)) }
{
    let text = fault_text(alloc, fault_kind(fault), field_of(fault))?;
    Ok(response_of(400, MediaType::Json, text))
}

/// A response that is the same whatever was asked for. It takes no memory.
fn plain_parts<'a>(plain: Plain) -> LentResponse<'a>
    ensures { shown_parts result ≡ plain_parts plain }
{
    match plain {
        Plain::NotFound => bare(404),
        Plain::WrongMethod => bare(405),
        Plain::Spent => lend_response(500, MediaType::Plain, b"numbers spent\n"),
        Plain::CutsFull => lend_response(409, MediaType::Json, b"{\"fault\":\"cuts full\"}\n"),
        Plain::CutSpent => lend_response(500, MediaType::Json, b"{\"fault\":\"numbers spent\"}\n"),
        Plain::Within => lend_response(200, MediaType::Json, b"{\"within\":true}\n"),
        Plain::BoardFull => lend_response(409, MediaType::Json, b"{\"fault\":\"board full\"}\n"),
        Plain::DiskFault => lend_response(500, MediaType::Json, b"{\"fault\":\"disk\"}\n"),
        Plain::NoMemory => bare(503),
    }
}

/// The parts of the response to a request with this outcome, where `document` is the capabilities document, and a tile is to be spelt so. A
/// tile or a composite as the pixmap that it is, the document and a text that was told are borrowed, and take no memory. `AllocError` where it runs out
/// for another body.
pub fn parts_of<'a>(
    alloc: Global,
    tables: &CrcTables,
    document: &'a [u8],
    spelling: Spelling,
    outcome: &'a Outcome,
) -> Result<LentResponse<'a>, AllocError>
    ensures parts { IfOk result (λ p. shown_parts p ≡ parts_of document.now spelling outcome.now) }
    ensures made { OnErr result (is_made spelling outcome.now ≡ true) }
{
    match outcome {
        Outcome::Tile(hit, number, text) => {
            let headers = TileHeaders {
                hit: *hit,
                number: *number,
            };
            tile(
                alloc,
                tables,
                spelling,
                BodyHeaders::Tile(headers),
                text.bytes(),
            )
        }
        Outcome::Composite(numbers, text) => {
            let headers = BodyHeaders::Composite(numbers);
            tile(alloc, tables, spelling, headers, text.bytes())
        }
        Outcome::Document => Ok(lend_response(200, MediaType::Xml, document)),
        Outcome::Refused(code, locator) => report_response(alloc, *code, locator),
        Outcome::SourceFailed => report_response(alloc, Code::NoApplicableCode, &Locator::Nowhere),
        Outcome::Usage(text) => Ok(lend_response(200, MediaType::Plain, text.bytes())),
        Outcome::Cut(number) => cut_response(alloc, *number),
        Outcome::Unformed(fault) => form_response(alloc, *fault),
        Outcome::Dropped(text) => Ok(lend_response(200, MediaType::Json, text.bytes())),
        Outcome::Job(text) => Ok(lend_response(200, MediaType::Json, text.bytes())),
        Outcome::Plain(plain) => Ok(plain_parts(*plain)),
    }
}
