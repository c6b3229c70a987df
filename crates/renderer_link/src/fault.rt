//! Why a render failed, and how that is told.
use http_answer::{AnswerFault, Misframed};
use std::alloc::AllocError;
use std::fmt;
use std::io::ErrorKind;

/// Why a render failed.
#[derive(Clone, Copy, Debug, PartialEq, Eq)]
pub enum RendererFault {
    /// No connection was had.
    Connect(ErrorKind),
    /// A write or a read failed.
    Stream(ErrorKind),
    /// The connection or the answer took longer than it may.
    Late,
    /// What came is no answer that is taken.
    Answer(AnswerFault),
    /// The body isn't a binary pixmap of the window's size.
    NoPixmap,
    /// Memory ran out.
    OutOfMemory,
}

impl From<AllocError> for RendererFault {
    fn from(_e: AllocError) -> RendererFault {
        RendererFault::OutOfMemory
    }
}

/// The fault in words.
impl fmt::Display for RendererFault {
    fn fmt<W: fmt::Write>(&self, f: &mut fmt::Formatter<W>) -> fmt::Result {
        match self {
            RendererFault::Connect(kind) => write!(f, "no connection, {kind}"),
            RendererFault::Stream(kind) => write!(f, "the connection failed, {kind}"),
            RendererFault::Late => f.write_str("it took too long"),
            RendererFault::Answer(AnswerFault::Status(code)) => write!(f, "status {code}"),
            RendererFault::Answer(fault) => f.write_str(words_of(*fault)),
            RendererFault::NoPixmap => f.write_str("no binary pixmap of the window's size"),
            RendererFault::OutOfMemory => f.write_str("out of memory"),
        }
    }
}

/// What is wrong with an answer, in words.
fn words_of(fault: AnswerFault) -> &'static str {
    match fault {
        AnswerFault::NotHttp => "not an answer of HTTP",
        AnswerFault::TooManyFields => "more than 64 fields",
        AnswerFault::HeadTooLong => "a head of more than 16384 bytes",
        AnswerFault::Status(_) => "another status than 200",
        AnswerFault::Framing(how) => words_of_framing(how),
        AnswerFault::BrokenChunk => "a broken chunk",
        AnswerFault::TooLong => "more bytes than the pixels take",
        AnswerFault::CutOff => "it ended too early",
    }
}

/// What is wrong with the fields that say where the body ends, in words.
fn words_of_framing(how: Misframed) -> &'static str {
    match how {
        Misframed::NotALength => "a Content-Length that is no number",
        Misframed::TwoLengths => "two Content-Length fields",
        Misframed::OtherCoding => "a Transfer-Encoding other than chunked",
        Misframed::LengthBesideCoding => "Content-Length beside Transfer-Encoding",
    }
}
