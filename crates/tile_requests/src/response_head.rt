//! The head of a response. It takes no memory.
ghost use Rattle.std.specs.Prelude.{◌≡◌, ◌+◌, ◌*◌, ◌≤◌, ◌++◌, codes, decimal, flat_map, length};
ghost use Rattle.arrayvec.specs.ArrayVec.{array_vec_len};
ghost use Rattle.tile_requests.specs.Response.{cache_result, close_header, composite_headers, head_text, joined, status_text, tile_headers, type_header};
ghost use Rattle.tile_requests.specs.Shown.{headers_text, media_type_text, shown_parts};

use crate::parts::{BodyHeaders, LentResponse, MediaType};
use crate::small_text::{add, add_number};
use arrayvec::ArrayVec;

/// A status and its phrase.
fn status_text(status: u16) -> &'static [u8]
    ensures text { result.now ≡ status_text status }
    ensures short { length result.now ≤ 40 }
{
    match status {
        200 => b"200 OK",
        400 => b"400 Bad Request",
        404 => b"404 Not Found",
        405 => b"405 Method Not Allowed",
        409 => b"409 Conflict",
        413 => b"413 Payload Too Large",
        431 => b"431 Request Header Fields Too Large",
        501 => b"501 Not Implemented",
        503 => b"503 Service Unavailable",
        _ => b"500 Internal Server Error",
    }
}

/// The name of a body's type; empty where there is none.
fn media_type_text(media_type: Option<MediaType>) -> &'static [u8]
    ensures text { result.now ≡ media_type_text media_type }
    ensures short { length result.now ≤ 40 }
{
    match media_type {
        None => b"",
        Some(media_type) => media_type.name(),
    }
}

/// Adds the header of a body's type, where there is a body.
fn add_type(text: &mut ArrayVec<u8, 1024>, media_type: &[u8], body: &[u8])
    requires room { array_vec_len text.old ≤ 512 }
    requires short { length media_type.now ≤ 40 }
    ensures items { text.new.items ≡ text.old.items ++ type_header media_type.now body.now }
    ensures len { array_vec_len text.new ≤ array_vec_len text.old + 60 }
{
    if body.is_empty() {
        return;
    }
    add(text, b"Content-Type: ");
    add(text, media_type);
    add(text, b"\r\n");
}

/// What a tile's header tells of the cache.
fn cache_result(hit: bool) -> &'static [u8]
    ensures text { result.now ≡ cache_result hit }
    ensures short { length result.now ≤ 4 }
{
    if hit { b"HIT" } else { b"MISS" }
}

/// Adds the headers of a tile.
fn add_tile_headers(text: &mut ArrayVec<u8, 1024>, hit: bool, number: u64)
    requires { array_vec_len text.old ≤ 700 }
    ensures items { text.new.items ≡ text.old.items ++ tile_headers hit number }
    ensures len { array_vec_len text.new ≤ array_vec_len text.old + 70 }
{
    add(text, b"geowebcache-cache-result: ");
    add(text, cache_result(hit));
    add(text, b"\r\ntile-render: ");
    add_number(text, number);
    add(text, b"\r\n");
}

/// Adds numbers, a comma in front of each.
fn add_further(text: &mut ArrayVec<u8, 1024>, numbers: &[u64])
    requires { array_vec_len text.old + 21 * length numbers.now ≤ 1024 }
    ensures items { text.new.items ≡ text.old.items ++ flat_map (λ k. codes "," ++ decimal k) numbers.now }
    ensures len { array_vec_len text.new ≤ array_vec_len text.old + 21 * length numbers.now }
{
    for number in numbers {
        add(text, b",");
        add_number(text, *number);
    }
}

/// Adds numbers with commas between them.
fn add_joined(text: &mut ArrayVec<u8, 1024>, numbers: &[u64])
    requires { array_vec_len text.old + 21 * length numbers.now ≤ 1024 }
    ensures items { text.new.items ≡ text.old.items ++ joined numbers.now }
    ensures len { array_vec_len text.new ≤ array_vec_len text.old + 21 * length numbers.now }
{
    match numbers {
        [] => {}
        [first, rest @ ..] => {
            add_number(text, *first);
            add_further(text, rest);
        }
    }
}

/// Adds the header of a tile of several parts: the numbers of their renders.
fn add_composite_headers(text: &mut ArrayVec<u8, 1024>, numbers: &[u64])
    requires room { array_vec_len text.old ≤ 700 }
    requires few { length numbers.now ≤ 8 }
    ensures items { text.new.items ≡ text.old.items ++ composite_headers numbers.now }
    ensures len { array_vec_len text.new ≤ array_vec_len text.old + 190 }
{
    add(text, b"composite-renders: ");
    add_joined(text, numbers);
    add(text, b"\r\n");
}

/// The numbers of a tile of several parts, of which there are 8 at most.
fn numbers_of(numbers: &ArrayVec<u64, 8>) -> &[u64]
    ensures items { result.now ≡ numbers.now.items }
    ensures few { length result.now ≤ 8 }
{
    let _count = numbers.len();
    numbers.as_slice()
}

/// Adds what is told beside the type and the length of a body.
fn add_headers(text: &mut ArrayVec<u8, 1024>, headers: BodyHeaders<'_>)
    requires { array_vec_len text.old ≤ 700 }
    ensures items { text.new.items ≡ text.old.items ++ headers_text headers.entry }
    ensures len { array_vec_len text.new ≤ array_vec_len text.old + 190 }
{
    match headers {
        BodyHeaders::Plain => {}
        BodyHeaders::Tile(tile) => add_tile_headers(text, tile.hit, tile.number),
        BodyHeaders::Composite(numbers) => add_composite_headers(text, numbers_of(numbers)),
    }
}

/// The header that closes a connection.
fn close_header(closes: bool) -> &'static [u8]
    ensures text { result.now ≡ close_header closes }
    ensures short { length result.now ≤ 20 }
{
    if closes {
        b"Connection: close\r\n"
    } else {
        b""
    }
}

/// The head of a response, which closes its connection or does not.
#[tactic(auto, unfolding(crate::specs::Response::head_text))]
pub fn head(closes: bool, parts: &LentResponse<'_>) -> ArrayVec<u8, 1024>
    ensures items { result.items ≡ head_text closes (shown_parts parts.now) }
    ensures short { array_vec_len result ≤ 400 }
{
    let body = parts.body.bytes();
    let mut text = ArrayVec::new();
    add(&mut text, b"HTTP/1.1 ");
    add(&mut text, status_text(parts.status));
    add(&mut text, b"\r\n");
    add_type(&mut text, media_type_text(parts.media_type), body);
    add(&mut text, b"Content-Length: ");
    add_number(&mut text, body.len() as u64);
    add(&mut text, b"\r\n");
    add_headers(&mut text, parts.headers);
    add(&mut text, close_header(closes));
    add(&mut text, b"\r\n");
    text
}
