//! Why an answer is refused.

/// How the fields of a head say wrongly where the body ends (RFC 9112, sections 6 and 7).
#[derive(Clone, Copy, Debug, PartialEq, Eq)]
pub enum Misframed {
    /// `Content-Length` isn't 1 to 18 digits.
    NotALength,
    /// There are two `Content-Length` fields.
    TwoLengths,
    /// `Transfer-Encoding` isn't `chunked`, or stands twice or in an answer of HTTP/1.0.
    OtherCoding,
    /// `Content-Length` stands beside `Transfer-Encoding`.
    LengthBesideCoding,
}

/// Why an answer is refused.
#[derive(Clone, Copy, Debug, PartialEq, Eq)]
pub enum AnswerFault {
    /// No answer of HTTP/1.0 or 1.1 begins so.
    NotHttp,
    /// The head has more than 64 fields.
    TooManyFields,
    /// The head doesn't end within 16,384 bytes.
    HeadTooLong,
    /// The status isn't 200.
    Status(u16),
    /// The head says wrongly where the body ends.
    Framing(Misframed),
    /// A chunk or the trailer isn't as RFC 9112, section 7.1, has it.
    BrokenChunk,
    /// More bytes came than the limit.
    TooLong,
    /// The stream ended before the answer was whole.
    CutOff,
}
