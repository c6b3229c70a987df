//! What the fields of a head say of the body's length and of the connection's end, and the method that a token names.
ghost use Rattle.std.specs.List.{list_any};
ghost use Rattle.std.specs.Prelude.{◌≡◌, ◌≤◌, length, map, All, IfOk, codes};
ghost use Rattle.std.specs.Str.{str_eq_ignore_ascii_case};
ghost use Rattle.http_wire.specs.Fields.{is_named, has_named, values, said_length, says_close};
ghost use Rattle.http_wire.specs.Lengths.{IsLengthOf};
ghost use Rattle.http_wire.specs.Messages.{method_of};
ghost use Rattle.httparse.specs.Grammar.{IsToken};
ghost use Rattle.httparse.specs.Spans.{IsHeaderWithin, header_bytes};

use crate::message::Method;
use httparse::spans::HeaderSpan;
use std::alloc::{AllocError, Global};

/// Whether two texts are the same without regard to ASCII case.
fn is_same(a: &[u8], b: &[u8]) -> bool
    ensures { result ≡ str_eq_ignore_ascii_case a.now b.now }
{
    a.eq_ignore_ascii_case(b)
}

/// Whether a field has that name.
fn is_field(bytes: &[u8], header: &HeaderSpan, name: &[u8]) -> bool
    requires { IsHeaderWithin (length bytes.now) header.now }
    ensures { result ≡ is_named name.now (header_bytes bytes.now header.now) }
{
    is_same(header.name.of(bytes), name)
}

/// Whether there is a field of that name.
pub fn has_field(bytes: &[u8], headers: &[HeaderSpan], name: &[u8]) -> bool
    requires { All (IsHeaderWithin (length bytes.now)) headers.now }
    ensures { result ≡ has_named name.now (map (header_bytes bytes.now) headers.now) }
{
    for header in headers {
        if is_field(bytes, header, name) {
            return true;
        }
    }
    false
}

/// Whether a Connection field says close.
pub fn has_close(bytes: &[u8], headers: &[HeaderSpan]) -> bool
    requires { All (IsHeaderWithin (length bytes.now)) headers.now }
    ensures { result ≡ list_any says_close (map (header_bytes bytes.now) headers.now) }
{
    for header in headers {
        if is_field(bytes, header, b"connection") && is_same(header.value.of(bytes), b"close") {
            return true;
        }
    }
    false
}

/// The number that 1 to 18 digits write; `None` for any other text.
fn length_of(text: &[u8]) -> Option<u64>
    ensures { IsLengthOf text.now result }
{
    if text.is_empty() || text.len() > 18 {
        return None;
    }
    let mut number = 0;
    for digit in text {
        if !digit.is_ascii_digit() {
            return None;
        }
        number = number * 10 + (*digit - b'0') as u64;
    }
    Some(number)
}

/// How long the fields say that the body is; `None` where they don't say it rightly.
pub fn body_length_of(bytes: &[u8], headers: &[HeaderSpan]) -> Option<u64>
    requires { All (IsHeaderWithin (length bytes.now)) headers.now }
    ensures { result ≡ said_length (values (codes "content-length") (map (header_bytes bytes.now) headers.now)) }
{
    let mut found = None;
    for header in headers {
        if is_field(bytes, header, b"content-length") {
            let length = length_of(header.value.of(bytes))?;
            if found.is_some() {
                return None;
            }
            found = Some(length);
        }
    }
    Some(found.unwrap_or(0))
}

/// The method that a token names. A long token that names none may take memory.
pub fn method_named(alloc: Global, name: &[u8]) -> Result<Method, AllocError>
    requires { IsToken name.now }
    ensures { IfOk result (λ method. method ≡ method_of name.now) }
{
    let Ok(named) = http::Method::from_bytes(alloc, name) else {
        return Err(AllocError);
    };
    if named == http::Method::GET {
        return Ok(Method::Get);
    }
    if named == http::Method::POST {
        return Ok(Method::Post);
    }
    if named == http::Method::DELETE {
        return Ok(Method::Delete);
    }
    Ok(Method::Other)
}
