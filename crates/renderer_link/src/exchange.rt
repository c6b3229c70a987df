//! One exchange with a renderer over a link: a request goes out, and the body of the answer comes back.
ghost use Rattle.std.specs.Io.KnownBytes.{Appends};
ghost use Rattle.std.specs.Prelude.{ℕ, ◌≡◌, ◌≤◌, ◌++◌, List, OnOk, Err};
ghost use Rattle.base.specs.Causes.{Rose};
ghost use Rattle.http_answer.specs.Reading.{IsReading};
ghost use Rattle.renderer_link.specs.Exchanges.{EndsSo, HasLinkCause, Receives, TakesSo};

use http_answer::{AnswerError, AnswerFault, AnswerSoFar, HttpAnswer};
use http_wire::{ByteSource, Link, send};
use std::alloc::Global;

/// How many bytes are taken at a time.
const PIECE: usize = 16384;

/// Why an exchange gave no body.
#[derive(Clone, Copy, Debug, PartialEq, Eq)]
pub enum ExchangeFault {
    /// A put or a take of the link failed.
    Link,
    /// What came is no answer that is taken.
    Answer(AnswerFault),
    /// Memory ran out.
    OutOfMemory,
}

/// The body of an answer whose stream ended.
fn ended(answer: HttpAnswer) -> Result<Vec<u8>, ExchangeFault>
    requires { (came : List ℕ) × IsReading answer came }
    ensures { (came : List ℕ) → IsReading answer came → EndsSo answer.limit came result }
{
    match answer.end() {
        Ok(body) => Ok(body),
        Err(fault) => Err(ExchangeFault::Answer(fault)),
    }
}

/// What comes of an answer and the piece behind it.
fn take_piece(answer: HttpAnswer, piece: &[u8]) -> Result<AnswerSoFar, ExchangeFault>
    requires { (came : List ℕ) × IsReading answer came }
    ensures { (came : List ℕ) → IsReading answer came → TakesSo answer.limit (came ++ piece.now) result }
{
    match answer.take(piece) {
        Ok(so_far) => Ok(so_far),
        Err(AnswerError::Refused(fault)) => Err(ExchangeFault::Answer(fault)),
        Err(AnswerError::OutOfMemory) => Err(ExchangeFault::OutOfMemory),
    }
}

/// Takes an answer of at most so many bytes from a source, and gives its body.
fn received<S: ByteSource>(
    alloc: Global,
    source: &mut S,
    limit: usize,
) -> Result<Vec<u8>, ExchangeFault>
    ensures received { Receives limit (S.left source.old) (S.left source.new) result }
    ensures later { S.faults source.old ≤ S.faults source.new }
    ensures cause { result ≡ Err ExchangeFault.Link → Rose (S.faults source.old) (S.faults source.new) }
    ensures apart { S.apart source.new ≡ S.apart source.old }
{
    let mut answer = HttpAnswer::new(alloc, limit);
    let mut piece = [0; PIECE];
    'taking: for _ in 0..u64::MAX {
        let Ok(count) = source.take(&mut piece) else {
            return Err(ExchangeFault::Link);
        };
        if count == 0 {
            return ended(answer);
        }
        match take_piece(answer, &piece[..count]) {
            Ok(AnswerSoFar::More(more)) => answer = more,
            Ok(AnswerSoFar::Whole(body)) => return Ok(body),
            Err(fault) => return Err(fault),
        }
    }
    Err(ExchangeFault::OutOfMemory)
}

/// Sends a request over a link, and takes the body of the answer, of at most so many bytes with its head and the lines of its chunks.
///
/// `Link` only where a put or a take failed; `Answer` exactly where the bytes that came are refused so; `OutOfMemory` where memory runs
/// out.
pub fn exchanged<L: Link>(
    alloc: Global,
    link: &mut L,
    request: &[u8],
    limit: usize,
) -> Result<Vec<u8>, ExchangeFault>
    ensures sent { OnOk result (Appends (L.taken link.old) (L.taken link.new) request.now) }
    ensures received { Receives limit (L.left link.old) (L.left link.new) result }
    ensures cause { HasLinkCause (L.ByteSource.faults link.old) (L.ByteSource.faults link.new) (L.ByteSink.faults link.old) (L.ByteSink.faults link.new) result }
{
    if send(link, request).is_err() {
        return Err(ExchangeFault::Link);
    }
    received(alloc, link, limit)
}
