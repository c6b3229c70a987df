//! An answer as its bytes come.
ghost use Rattle.std.specs.Prelude.{◌≡◌, ℕ, ◌++◌, List, []};
ghost use Rattle.http_answer.specs.Reading.{IsReading, Takes, Ends};

use crate::fault::AnswerFault;
use crate::stage::{ReadStage, go_on, part};
use std::alloc::Global;

/// An answer of which some bytes came, and more are wanted.
#[derive(Drop)]
pub struct HttpAnswer {
    /// The bytes that came. Of a chunked body the data of whole chunks were moved to the front.
    pub bytes: Vec<u8>,
    /// The most bytes that may come.
    pub limit: usize,
    /// How far they were read.
    pub stage: ReadStage,
}

/// What came of a piece of an answer.
#[derive(Drop)]
pub enum AnswerSoFar {
    /// The answer isn't whole yet.
    More(HttpAnswer),
    /// The answer is whole, with this body.
    Whole(Vec<u8>),
}

/// Why a piece isn't taken.
#[derive(Clone, Copy, Debug, PartialEq, Eq)]
pub enum AnswerError {
    /// The bytes that came are no answer that is taken.
    Refused(AnswerFault),
    /// Memory ran out.
    OutOfMemory,
}

impl HttpAnswer {
    /// An answer of which nothing came yet, and that may have so many bytes, the head and the lines of chunks among them.
    pub fn new(alloc: Global, limit: usize) -> HttpAnswer
        ensures reading { IsReading result [] }
        ensures limit { result.limit ≡ limit }
    {
        HttpAnswer {
            bytes: Vec::new(alloc),
            limit,
            stage: ReadStage::Head,
        }
    }

    /// Takes the piece that came next. `Refused` where the bytes that came are no answer, whatever follows them, or more than the
    /// limit; `OutOfMemory` where memory runs out.
    pub fn take(self, piece: &[u8]) -> Result<AnswerSoFar, AnswerError>
        requires { (came : List ℕ) × IsReading self came }
        ensures { (came : List ℕ) → IsReading self came → Takes self.limit (came ++ piece.now) result }
    {
        let HttpAnswer {
            mut bytes,
            limit,
            stage,
        } = self;
        if bytes.len() + piece.len() > limit {
            return Err(AnswerError::Refused(AnswerFault::TooLong));
        }
        let Ok(()) = bytes.extend_from_slice(piece) else {
            return Err(AnswerError::OutOfMemory);
        };
        match go_on(bytes, limit, stage) {
            Ok(taken) => Ok(taken),
            Err(fault) => Err(AnswerError::Refused(fault)),
        }
    }

    /// The body of an answer whose stream ended: `CutOff` where it doesn't end with the stream, since it isn't whole yet.
    pub fn end(self) -> Result<Vec<u8>, AnswerFault>
        requires { (came : List ℕ) × IsReading self came }
        ensures { (came : List ℕ) → IsReading self came → Ends self.limit came result }
    {
        let HttpAnswer {
            bytes,
            limit: _,
            stage,
        } = self;
        match stage {
            ReadStage::ToEnd(start) => {
                let size = bytes.len() - start;
                Ok(part(bytes, start, size))
            }
            _ => Err(AnswerFault::CutOff),
        }
    }
}
