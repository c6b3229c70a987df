//! What taking a packet comes to.
use change_feed::Applied;
use outbox::Packet;

/// What became of a packet that came to a follower.
#[derive(Clone, Copy)]
pub enum Taken {
    /// It is a change: what became of it, and the packet that tells the leader which changes are in force now, `Seen` of the number of
    /// the last one that is marked.
    Answer(Applied, Packet),
    /// It is a `Seen`, which is for a leader; nothing changed.
    NotAChange,
}
