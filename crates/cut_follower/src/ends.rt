//! How a call over a link ends.
use change_feed::Applied;

/// How the leader's or the follower's side of a link ended.
#[derive(Clone, Copy, PartialEq, Eq)]
pub enum LinkEnd {
    /// A leader: each of its posts was heard as seen. A follower: the stream ended between two packets.
    Finished,
    /// The stream ended within a packet, or, for a leader, before the one that it waited for.
    Truncated,
    /// 64 bytes came that are no packet for this side. A leader: they are no `Seen`, or one below the post that was just sent or above its
    /// posts. A follower: they are no change, or one whose cover isn't of the catalogue.
    BadPacket,
    /// A read of the link failed.
    ReadFault,
    /// A write to the link failed.
    WriteFault,
    /// A follower: a change came to this, neither done nor repeated. Its `Seen` was not sent.
    Stopped(Applied),
    /// A follower: 1,000,000 packets came, and what follows them was not looked at.
    TooMany,
    /// A follower: memory ran out.
    OutOfMemory,
}
