//! The next message of a stream, or how it stops; a reader that has ended answers the same again.
ghost use Rattle.std.specs.Prelude.{◌≡◌, ◌≤◌, ◌+◌, length, take, drop, IfOk, OnErr};
ghost use Rattle.http_wire.specs.Answers.{next_at, again_of, ended_of};
ghost use Rattle.http_wire.specs.Fetches.{Fetches};
ghost use Rattle.http_wire.specs.Messages.{HoldsMessage};

use crate::filling::{read_head, read_up_to};
use crate::look::LookOutcome;
use crate::message::{Ended, Message, Next, Stop, WireFault};
use crate::outline::{Outlined, outline_of};
use crate::streams::ByteSource;
use exact_ratio::Words;
use httparse::spans::EMPTY_HEADER_SPAN;
use std::alloc::{AllocError, Global};

/// What a reader answers at a stop.
fn answer_at(stop: Stop) -> Next
    ensures { result ≡ next_at stop }
{
    match stop {
        Stop::End => Next::End,
        Stop::Truncated => Next::Truncated,
        Stop::Bad(status) => Next::Bad(status),
    }
}

/// What a reader answers again that has ended so.
pub fn again(ended: Ended) -> Result<Next, WireFault>
    ensures { result ≡ again_of ended }
{
    match ended {
        Ended::Stopped(stop) => Ok(answer_at(stop)),
        Ended::Failed(fault) => Err(fault),
    }
}

/// How a reader that answered this has ended, if it has.
pub fn ended_by(answer: &Result<Next, WireFault>) -> Option<Ended>
    ensures { result ≡ ended_of answer.now }
{
    match answer {
        Ok(Next::Message(_)) => None,
        Ok(Next::End) => Some(Ended::Stopped(Stop::End)),
        Ok(Next::Truncated) => Some(Ended::Stopped(Stop::Truncated)),
        Ok(Next::Bad(status)) => Some(Ended::Stopped(Stop::Bad(*status))),
        Err(fault) => Some(Ended::Failed(*fault)),
    }
}

/// Takes the head and the body off the front, and answers the body.
fn cut(alloc: Global, held: &mut Vec<u8>, start: usize, size: usize) -> Result<Words, AllocError>
    requires { start + size ≤ length held.old.items }
    ensures body { IfOk result (λ body. body ≡ take size (drop start held.old.items)) }
    ensures rest { IfOk result (λ body. held.new.items ≡ drop size (drop start held.old.items)) }
    ensures kept { OnErr result (held.new.items ≡ held.old.items) }
{
    let (_, after) = held.as_slice().split_at(start);
    let (body, rest) = after.split_at(size);
    let body = Words::new(alloc, body)?;
    let rest = Vec::from_slice(alloc, rest)?;
    *held = rest;
    Ok(body)
}

/// What stands next, of the bytes that are held and those that are left.
pub fn next_of<S: ByteSource>(
    alloc: Global,
    held: &mut Vec<u8>,
    source: &mut S,
) -> Result<Next, WireFault>
    ensures fetches { Fetches held.old.items held.new.items (S.left source.old) (S.left source.new) (S.faults source.old) (S.faults source.new) (S.apart source.old) (S.apart source.new) result }
    ensures untouched { HoldsMessage held.old.items → source.new ≡ source.old }
{
    let mut headers = [EMPTY_HEADER_SPAN; 64];
    let spans = match read_head(held, source, &mut headers)? {
        LookOutcome::Head(spans) => spans,
        LookOutcome::Stopped(stop) => return Ok(answer_at(stop)),
    };
    let outline = match outline_of(alloc, held.as_slice(), &headers, &spans) {
        Ok(Outlined::Good(outline)) => outline,
        Ok(Outlined::Refused(status)) => return Ok(Next::Bad(status)),
        Err(_) => return Err(WireFault::OutOfMemory),
    };
    if !read_up_to(held, source, outline.start + outline.size)? {
        return Ok(Next::Truncated);
    }
    let Ok(body) = cut(alloc, held, outline.start, outline.size) else {
        return Err(WireFault::OutOfMemory);
    };
    Ok(Next::Message(Message {
        method: outline.method,
        target: outline.target,
        body,
        last: outline.last,
    }))
}
