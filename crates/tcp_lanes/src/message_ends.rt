//! Where the message at the front of the bytes held ends, by the functions with which the reader of messages finds it.
ghost use Rattle.std.specs.Prelude.{◌≡◌, ◌≤◌, false, take, length};
ghost use Rattle.http_wire.specs.Lines.{HasNoLineEnd};
ghost use Rattle.http_wire.specs.Looks.{HoldsHead};
ghost use Rattle.http_wire.specs.Messages.{front};
ghost use Rattle.httparse.specs.Spans.{IsRequestOf, IsRequestWithin};
ghost use Rattle.tcp_lanes.specs.Ends.{MessageEndsAs};

use http_wire::{LookOutcome, front_of, judge, step};
use httparse::spans::{EMPTY_HEADER_SPAN, HeaderSpan, RequestSpans};

/// Where the message at the front ends.
#[derive(Clone, Copy, PartialEq, Eq)]
pub enum MessageEnd {
    /// A whole message stands there, of so many bytes, head and body.
    Whole(usize),
    /// No whole head stands there, and more bytes can make one.
    Headless,
    /// A head stands there, and the message is whole once so many bytes are held.
    Short(usize),
    /// No message ever stands there, whatever follows: a reader answers what is wrong.
    Hopeless,
}

/// Where the message ends whose head stands at the front.
fn end_behind(held: &[u8], headers: &[HeaderSpan], spans: &RequestSpans) -> MessageEnd
    requires is { IsRequestOf (front held.now) headers.now spans.now }
    requires within { IsRequestWithin (front held.now) headers.now spans.now }
    requires room { length headers.now ≡ 64 }
    ensures { MessageEndsAs held.now result }
{
    let first = front_of(held);
    let (fields, _) = headers.split_at(spans.headers);
    let size = match judge(first, fields) {
        Ok(size) => size,
        Err(_) => return MessageEnd::Hopeless,
    };
    let end = spans.len + size;
    if end <= held.len() {
        MessageEnd::Whole(end)
    } else {
        MessageEnd::Short(end)
    }
}

/// Where the message at the front of these bytes ends.
pub fn message_end(held: &[u8]) -> MessageEnd
    ensures { MessageEndsAs held.now result }
{
    let mut headers = [EMPTY_HEADER_SPAN; 64];
    match step(held, &mut headers) {
        None => MessageEnd::Headless,
        Some(LookOutcome::Stopped(_)) => MessageEnd::Hopeless,
        Some(LookOutcome::Head(spans)) => end_behind(held, &headers, &spans),
    }
}

/// Whether a line ends in the bytes from a place on.
fn has_line_end(held: &[u8], from: usize) -> bool
    requires { from ≤ length held.now }
    ensures { result ≡ false → HasNoLineEnd from (length held.now) held.now }
{
    let (_, new) = held.split_at(from);
    new.contains(&b'\n')
}

/// Whether a head may be whole that wasn't when only the first `seen` bytes were there: a line ends in the others, without which
/// no head ends.
pub fn may_end_head(held: &[u8], seen: usize) -> bool
    ensures { result ≡ false → (HoldsHead (take seen held.now) → ⊥) → HoldsHead held.now → ⊥ }
{
    has_line_end(held, seen.min(held.len()))
}
