//! The chunks of a body (RFC 9112, section 7.1).
ghost use Rattle.std.specs.Prelude.{◌≡◌, ◌≤◌, ◌<◌, ◌+◌, ◌==◌, ◌&&◌, length, drop, slice_index};
ghost use Rattle.http_answer.specs.Chunks.{IsLineAt, StandsAt};

use httparse::spans::{EMPTY_HEADER_SPAN, parse_headers_from};
use httparse::{Status, parse_chunk_size};

/// What stands at a place of a body where a chunk begins.
#[derive(Clone, Copy)]
pub enum ChunkAt {
    /// A chunk whose data have these bounds; the next one begins two bytes behind them.
    Data(usize, usize),
    /// The last chunk and the trailer, which end there.
    Last(usize),
    /// A chunk that isn't whole yet.
    Open,
    /// No chunk.
    Broken,
}

/// Whether a line ends at a place: CR and LF.
fn ends_line(bytes: &[u8], at: usize) -> bool
    requires { at + 2 ≤ length bytes.now }
    ensures { result ≡ ((slice_index bytes.now at == 13) && (slice_index bytes.now (at + 1) == 10)) }
{
    bytes[at] == b'\r' && bytes[at + 1] == b'\n'
}

/// What stands behind the line of the last chunk, which ends at this place.
fn trailer_at(bytes: &[u8], from: usize, at: usize) -> ChunkAt
    requires { IsLineAt bytes.now from at 0 }
    ensures { StandsAt bytes.now from result }
{
    let mut headers = [EMPTY_HEADER_SPAN; 64];
    match parse_headers_from(bytes, at, &mut headers) {
        Ok(Status::Complete((end, _))) => ChunkAt::Last(end),
        Ok(Status::Partial) => ChunkAt::Open,
        Err(_) => ChunkAt::Broken,
    }
}

/// What stands behind the line of a chunk of so many bytes, which ends at this place.
fn data_at(bytes: &[u8], from: usize, at: usize, size: u64) -> ChunkAt
    requires some { 0 < size }
    requires line { IsLineAt bytes.now from at size }
    ensures { StandsAt bytes.now from result }
{
    let left = bytes.len() - at;
    if left < 2 || ((left - 2) as u64) < size {
        return ChunkAt::Open;
    }
    let end = at + size as usize;
    if ends_line(bytes, end) {
        return ChunkAt::Data(at, end);
    }
    ChunkAt::Broken
}

/// What stands at this place, where a chunk begins.
pub fn chunk_at(bytes: &[u8], at: usize) -> ChunkAt
    requires { at ≤ length bytes.now }
    ensures { StandsAt bytes.now at result }
{
    match parse_chunk_size(&bytes[at..]) {
        Ok(Status::Complete((len, size))) => {
            if size == 0 {
                trailer_at(bytes, at, at + len)
            } else {
                data_at(bytes, at, at + len, size)
            }
        }
        Ok(Status::Partial) => ChunkAt::Open,
        Err(_) => ChunkAt::Broken,
    }
}
