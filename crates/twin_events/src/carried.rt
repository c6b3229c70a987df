//! What carrying a packet comes to.
use change_feed::Applied;

/// What became of a packet that was carried.
#[derive(Clone, Copy, PartialEq, Eq)]
pub enum CarriedPacket {
    /// It is the change of this number, which came to the follower; what became of it, and the place, from 1, of the `Seen` that the
    /// follower sent behind it.
    Taken(u64, Applied, u64),
    /// It is the `Seen` of this number, which came to the leader, and is news: all changes up to it are seen.
    Heard(u64),
    /// It is a `Seen` that came to the leader and is no news.
    Ignored,
}
