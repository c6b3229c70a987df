//! What a message takes of its head, or the status that refuses the head.
ghost use Rattle.std.specs.Prelude.{◌≡◌, ◌≤◌, ◌==◌, ◌||◌, length, map, All, IfOk};
ghost use Rattle.http_wire.specs.Messages.{front};
ghost use Rattle.http_wire.specs.Outlines.{Judges, Outlines};
ghost use Rattle.httparse.specs.Spans.{IsHeaderWithin, header_bytes, IsRequestOf, IsRequestWithin};

use crate::fields::{body_length_of, has_close, has_field, method_named};
use crate::look::front_of;
use crate::message::Method;
use exact_ratio::Words;
use httparse::spans::{HeaderSpan, RequestSpans};
use std::alloc::{AllocError, Global};

/// The most bytes that a body may have.
const BODY_LIMIT: u64 = 65536;

/// What a message takes of its head.
#[derive(Drop)]
pub struct Outline {
    pub method: Method,
    pub target: Words,
    pub last: bool,
    /// Where the body begins, in bytes from the front.
    pub start: usize,
    /// How many bytes the body has.
    pub size: usize,
}

/// The outline of a head, or the status that refuses it.
#[derive(Drop)]
pub enum Outlined {
    Good(Outline),
    Refused(u16),
}

/// How many bytes the body has that the fields of a head announce (RFC 9112, section 6), or the status that refuses the fields:
/// 400, 413 or 501.
pub fn judge(bytes: &[u8], headers: &[HeaderSpan]) -> Result<usize, u16>
    requires { All (IsHeaderWithin (length bytes.now)) headers.now }
    ensures { Judges (map (header_bytes bytes.now) headers.now) result }
{
    let Some(size) = body_length_of(bytes, headers) else {
        return Err(400);
    };
    if has_field(bytes, headers, b"transfer-encoding") {
        return Err(501);
    }
    if size > BODY_LIMIT {
        return Err(413);
    }
    Ok(size as usize)
}

/// Whether a message of that minor version is the last of its connection.
fn is_last_of(version: u8, closes: bool) -> bool
    ensures { result ≡ ((version == 0) || closes) }
{
    version == 0 || closes
}

/// The outline of the head that stands at the front of the bytes.
pub fn outline_of(
    alloc: Global,
    held: &[u8],
    headers: &[HeaderSpan],
    spans: &RequestSpans,
) -> Result<Outlined, AllocError>
    requires is { IsRequestOf (front held.now) headers.now spans.now }
    requires within { IsRequestWithin (front held.now) headers.now spans.now }
    requires room { length headers.now ≡ 64 }
    ensures { IfOk result (Outlines held.now) }
{
    let first = front_of(held);
    let (fields, _) = headers.split_at(spans.headers);
    let size = match judge(first, fields) {
        Ok(size) => size,
        Err(status) => return Ok(Outlined::Refused(status)),
    };
    let target = Words::new(alloc, spans.path.of(first))?;
    let method = method_named(alloc, spans.method.of(first))?;
    let closes = has_close(first, fields);
    Ok(Outlined::Good(Outline {
        method,
        target,
        last: is_last_of(spans.version, closes),
        start: spans.len,
        size,
    }))
}
