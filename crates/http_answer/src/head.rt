//! The head of an answer.
ghost use Rattle.std.specs.Prelude.{◌≡◌, length};
ghost use Rattle.http_answer.specs.Heads.{front, LooksAs, Frames, Heads};
ghost use Rattle.httparse.specs.Spans.{IsResponseOf, IsResponseWithin};

use crate::fault::AnswerFault;
use crate::fields::{Framing, framing_of};
use httparse::spans::{EMPTY_HEADER_SPAN, HeaderSpan, ResponseSpans, parse_response};
use httparse::{Error, Status};

/// The most bytes that a head may take.
const HEAD_LIMIT: usize = 16384;

/// What the front of the bytes is.
#[derive(Clone, Copy)]
enum HeadLook {
    Whole(ResponseSpans),
    Unfinished,
    Hopeless,
    TooMany,
}

/// The head of an answer whose status is 200.
#[derive(Clone, Copy)]
pub struct Head {
    /// Where the body begins, in bytes from the front.
    pub start: usize,
    pub framing: Framing,
}

fn look(bytes: &[u8], headers: &mut [HeaderSpan]) -> HeadLook
    ensures { LooksAs bytes.now (length headers.old) headers.new result }
{
    match parse_response(bytes, headers) {
        Ok(Status::Complete(spans)) => HeadLook::Whole(spans),
        Ok(Status::Partial) => HeadLook::Unfinished,
        Err(Error::TooManyHeaders) => HeadLook::TooMany,
        Err(_) => HeadLook::Hopeless,
    }
}

/// The bytes that a head may take.
fn front_of(bytes: &[u8]) -> &[u8]
    ensures { result.now ≡ front bytes.now }
{
    let (first, _) = bytes.split_at(bytes.len().min(HEAD_LIMIT));
    first
}

/// What is taken of the head that stands at the front of the bytes.
fn head_of_response(
    bytes: &[u8],
    headers: &[HeaderSpan],
    spans: ResponseSpans,
) -> Result<Head, AnswerFault>
    requires is { IsResponseOf (front bytes.now) headers.now spans }
    requires within { IsResponseWithin (front bytes.now) headers.now spans }
    requires room { length headers.now ≡ 64 }
    ensures { Frames bytes.now result }
{
    if spans.code != 200 {
        return Err(AnswerFault::Status(spans.code));
    }
    let first = front_of(bytes);
    let (fields, _) = headers.split_at(spans.headers);
    match framing_of(first, fields, spans.version) {
        Ok(framing) => Ok(Head {
            start: spans.len,
            framing,
        }),
        Err(fault) => Err(AnswerFault::Framing(fault)),
    }
}

/// The head of the answer that begins with these bytes; `None` where more bytes may make one.
pub fn head_of(bytes: &[u8]) -> Result<Option<Head>, AnswerFault>
    ensures { Heads bytes.now result }
{
    let mut headers = [EMPTY_HEADER_SPAN; 64];
    match look(front_of(bytes), &mut headers) {
        HeadLook::Whole(spans) => match head_of_response(bytes, &headers, spans) {
            Ok(head) => Ok(Some(head)),
            Err(fault) => Err(fault),
        },
        HeadLook::Unfinished => {
            if bytes.len() < HEAD_LIMIT {
                Ok(None)
            } else {
                Err(AnswerFault::HeadTooLong)
            }
        }
        HeadLook::Hopeless => Err(AnswerFault::NotHttp),
        HeadLook::TooMany => Err(AnswerFault::TooManyFields),
    }
}
