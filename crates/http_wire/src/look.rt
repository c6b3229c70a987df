//! What the bytes at the front of a stream settle: a head, a stop, or nothing yet.
ghost use Rattle.std.specs.Prelude.{◌≡◌, length};
ghost use Rattle.http_wire.specs.Looks.{LooksAs, Steps, MayHaveHead};
ghost use Rattle.http_wire.specs.Messages.{front, StopsAs};

use crate::message::Stop;
use httparse::spans::{HeaderSpan, RequestSpans, parse_request};
use httparse::{Error, Status};

/// The most bytes that a head may take.
pub const HEAD_LIMIT: usize = 16384;

/// What the front of the bytes is.
#[derive(Clone, Copy)]
pub enum Looked {
    Whole(RequestSpans),
    Unfinished,
    Hopeless,
    TooMany,
}

/// What the bytes so far settle.
#[derive(Clone, Copy)]
pub enum LookOutcome {
    Head(RequestSpans),
    Stopped(Stop),
}

fn look(bytes: &[u8], headers: &mut [HeaderSpan]) -> Looked
    ensures { LooksAs bytes.now (length headers.old) headers.new result }
{
    match parse_request(bytes, headers) {
        Ok(Status::Complete(spans)) => Looked::Whole(spans),
        Ok(Status::Partial) => Looked::Unfinished,
        Err(Error::TooManyHeaders) => Looked::TooMany,
        Err(_) => Looked::Hopeless,
    }
}

/// The bytes that a head may take.
pub fn front_of(held: &[u8]) -> &[u8]
    ensures { result.now ≡ front held.now }
{
    let (first, _) = held.split_at(held.len().min(HEAD_LIMIT));
    first
}

/// What the bytes so far settle, whatever follows them; `None` where a head may still come.
pub fn step(held: &[u8], headers: &mut [HeaderSpan]) -> Option<LookOutcome>
    requires { length headers.old ≡ 64 }
    ensures { Steps held.now headers.new result }
{
    match look(front_of(held), headers) {
        Looked::Whole(spans) => Some(LookOutcome::Head(spans)),
        Looked::Hopeless => Some(LookOutcome::Stopped(Stop::Bad(400))),
        Looked::TooMany => Some(LookOutcome::Stopped(Stop::Bad(431))),
        Looked::Unfinished => {
            if held.len() < HEAD_LIMIT {
                None
            } else {
                Some(LookOutcome::Stopped(Stop::Bad(431)))
            }
        }
    }
}

/// How a stream stops that ends with these bytes.
pub fn at_end(held: &[u8]) -> Stop
    requires { MayHaveHead held.now }
    ensures { StopsAs held.now result }
{
    if held.is_empty() {
        Stop::End
    } else {
        Stop::Truncated
    }
}
