//! The types of messages, and of how a stream of them goes on and stops.
use exact_ratio::Words;

/// The method of a message (RFC 9110, section 9).
#[derive(Clone, Copy, PartialEq, Eq)]
pub enum Method {
    Get,
    Post,
    Delete,
    /// Any other token.
    Other,
}

/// A request: its head, as far as it matters here, and its body.
#[derive(Drop)]
pub struct Message {
    pub method: Method,
    /// The request target, as it stands in the head.
    pub target: Words,
    pub body: Words,
    /// Whether it is the last of its connection: the version is 1.0, or a Connection field says `close`.
    pub last: bool,
}

/// What stands next in a stream.
#[derive(Drop)]
pub enum Next {
    Message(Message),
    /// The stream ends, and no byte of a further message stands.
    End,
    /// The stream ends within a message.
    Truncated,
    /// No message stands, for the reason that this status gives: 400, 413, 431 or 501.
    Bad(u16),
}

/// Why a stream could not be read on.
#[derive(Clone, Copy, Debug, PartialEq, Eq)]
pub enum WireFault {
    /// A read failed.
    ReadFault,
    /// Memory ran out.
    OutOfMemory,
}

/// How a stream of messages stops: `Next` without the message.
#[derive(Clone, Copy, PartialEq, Eq)]
pub enum Stop {
    End,
    Truncated,
    Bad(u16),
}

/// How a reader of messages has ended.
#[derive(Clone, Copy, PartialEq, Eq)]
pub enum Ended {
    Stopped(Stop),
    Failed(WireFault),
}
