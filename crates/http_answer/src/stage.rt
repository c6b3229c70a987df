//! How far an answer was read, and the next step.
ghost use Rattle.std.specs.Prelude.{◌≡◌, ◌≤◌, ◌+◌, ℕ, List, length, take, drop};
ghost use Rattle.http_answer.specs.Heads.{IsHead};
ghost use Rattle.http_answer.specs.Reading.{IsAt, IsCounted, IsUnchunked, Goes};
ghost use Rattle.http_answer.specs.Unchunking.{IsWithin};

use crate::answer::{AnswerSoFar, HttpAnswer};
use crate::fault::AnswerFault;
use crate::fields::Framing;
use crate::head::{Head, head_of};
use crate::unchunking::{Cursor, Unchunked, unchunk};

/// How far an answer was read.
#[derive(Clone, Copy)]
pub enum ReadStage {
    /// The head may still come.
    Head,
    /// The body begins there, and has so many bytes.
    Counted(usize, u64),
    /// The body begins there, and ends with the stream.
    ToEnd(usize),
    /// The body comes in chunks.
    Chunks(Cursor),
}

/// So many bytes from a place on.
pub fn part(mut bytes: Vec<u8>, start: usize, size: usize) -> Vec<u8>
    requires { start + size ≤ length bytes.items }
    ensures { result.items ≡ take size (drop start bytes.items) }
{
    bytes.as_mut_slice().copy_within(start..start + size, 0);
    bytes.truncate(size);
    bytes
}

/// The body of so many bytes from a place on, or the wait for it.
fn body_of_count(
    bytes: Vec<u8>,
    limit: usize,
    start: usize,
    size: u64,
) -> Result<AnswerSoFar, AnswerFault>
    requires { start ≤ length bytes.items }
    ensures { (came : List ℕ) → IsCounted bytes.items start size came → Goes limit came result }
{
    if ((bytes.len() - start) as u64) < size {
        return Ok(AnswerSoFar::More(HttpAnswer {
            bytes,
            limit,
            stage: ReadStage::Counted(start, size),
        }));
    }
    Ok(AnswerSoFar::Whole(part(bytes, start, size as usize)))
}

/// The body of the chunks that came, or the wait for more.
fn chunked(mut bytes: Vec<u8>, limit: usize, from: Cursor) -> Result<AnswerSoFar, AnswerFault>
    requires { IsWithin (length bytes.items) from }
    ensures { (came : List ℕ) → IsUnchunked bytes.items from came → Goes limit came result }
{
    match unchunk(&mut bytes, from) {
        Unchunked::Open(cursor) => Ok(AnswerSoFar::More(HttpAnswer {
            bytes,
            limit,
            stage: ReadStage::Chunks(cursor),
        })),
        Unchunked::Whole(to) => {
            bytes.truncate(to);
            Ok(AnswerSoFar::Whole(bytes))
        }
        Unchunked::Broken => Err(AnswerFault::BrokenChunk),
    }
}

/// What comes of the bytes behind a head.
fn answer_of_frame(bytes: Vec<u8>, limit: usize, head: Head) -> Result<AnswerSoFar, AnswerFault>
    requires { IsHead bytes.items head }
    ensures { Goes limit bytes.items result }
{
    match head.framing {
        Framing::Length(size) => body_of_count(bytes, limit, head.start, size),
        Framing::Chunked => {
            let from = Cursor {
                to: 0,
                at: head.start,
            };
            chunked(bytes, limit, from)
        }
        Framing::ToEnd => Ok(AnswerSoFar::More(HttpAnswer {
            bytes,
            limit,
            stage: ReadStage::ToEnd(head.start),
        })),
    }
}

/// What comes of the bytes that came, of which those before the last piece were read as far as the stage says.
pub fn go_on(bytes: Vec<u8>, limit: usize, stage: ReadStage) -> Result<AnswerSoFar, AnswerFault>
    requires { (came : List ℕ) × IsAt bytes.items stage came }
    ensures { (came : List ℕ) → IsAt bytes.items stage came → Goes limit came result }
{
    match stage {
        ReadStage::Head => match head_of(bytes.as_slice()) {
            Ok(Some(head)) => answer_of_frame(bytes, limit, head),
            Ok(None) => Ok(AnswerSoFar::More(HttpAnswer {
                bytes,
                limit,
                stage: ReadStage::Head,
            })),
            Err(fault) => Err(fault),
        },
        ReadStage::Counted(start, size) => body_of_count(bytes, limit, start, size),
        ReadStage::ToEnd(start) => Ok(AnswerSoFar::More(HttpAnswer {
            bytes,
            limit,
            stage: ReadStage::ToEnd(start),
        })),
        ReadStage::Chunks(cursor) => chunked(bytes, limit, cursor),
    }
}
