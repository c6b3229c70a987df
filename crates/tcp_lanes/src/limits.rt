//! How long a connection may wait for its client, how many there may be, and what a lane does at a time.
ghost use Rattle.std.specs.Prelude.{◌≡◌};

/// What a server grants its clients. Times are in milliseconds.
#[derive(Clone, Copy, PartialEq, Eq)]
pub struct Limits {
    /// How long a connection may rest between two messages, and before its first.
    pub rest: u64,
    /// How long a message may take to be whole, from its first byte on.
    pub message: u64,
    /// How long an answer may wait while its client takes nothing of it, and how long a client may take to close once its last
    /// answer went out.
    pub answer: u64,
    /// How often connections are looked for that waited too long. None waits longer than its limit and this. At 0 a server
    /// that waits looks all the time.
    pub sweep: u64,
    /// The most connections that are open at a time. Further ones wait in the backlog of the system.
    pub connections: usize,
}

impl Limits {
    /// A minute between two messages, ten seconds for a message and for an answer, a look each second, and a thousand
    /// connections.
    pub fn standard() -> Limits
        ensures rest { result.rest ≡ 60000 }
        ensures message { result.message ≡ 10000 }
        ensures answer { result.answer ≡ 10000 }
        ensures sweep { result.sweep ≡ 1000 }
        ensures connections { result.connections ≡ 1000 }
    {
        Limits {
            rest: 60_000,
            message: 10_000,
            answer: 10_000,
            sweep: 1_000,
            connections: 1000,
        }
    }
}

/// The most lanes that are out at a time: as many as a server has workers.
pub const LANES: usize = 48;

/// The most connections that one turn accepts, so that other clients aren't kept waiting.
pub const WELCOMES: usize = 64;

/// The most bytes that one read takes.
pub const READ_SIZE: usize = 4096;

/// How many bytes the looks for the end of one head may cost, all together, before it is looked for only where a line ends.
/// Messages of less than 700 bytes never cost so many, nor heads that come in no more pieces than a network makes of them.
pub const LOOKING: usize = 262_144;

/// The most reads of one turn whose bytes are ignored, since the last answer was given.
pub const IGNORED: usize = 16;

/// The most bytes of an answer that are held back until more of it comes, so that a head leaves with its body.
pub const HELD_BACK: usize = 4096;

/// The most messages that are served of those in line before the system is asked again who is ready.
pub const SERVED: u64 = 16;

/// How many looks without a change a watcher takes before it parks.
pub const LOOKS: u32 = 10;

/// How long a watcher waits between two looks.
pub const WATCH: u64 = 1;

/// How many events the system tells at a time.
pub const EVENTS: usize = 256;

/// How long is waited between two tries to send the answers under way when the last lane has ended. They are tried for as long as
/// one answer may wait, all together.
pub const PAUSE: u64 = 10;

/// The numbers by which the system tells that it has no memory, that it or this process has no descriptor left, and that it has no
/// buffers.
pub const ENOMEM: i32 = 12;

pub const ENFILE: i32 = 23;

pub const EMFILE: i32 = 24;

pub const ENOBUFS: i32 = 105;
