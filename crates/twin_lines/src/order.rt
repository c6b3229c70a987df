//! What a line orders.
use matrix_geometry::Address;
use truncation_list::Cover;

/// One of the two sides of a lossy link.
#[derive(Clone, Copy, PartialEq, Eq)]
pub enum LinkSide {
    /// The one that posts: an outbox.
    Leader,
    /// The one that applies: a cabinet and the marks of its feed.
    Follower,
}

/// What a line orders.
#[derive(Clone, Copy, PartialEq, Eq)]
pub enum TwinOrder {
    /// `POST <cover>`: the leader posts a cover.
    Post(Cover),
    /// `SEND`: the leader sends the first post that it hasn't heard as seen.
    Send,
    /// `CARRY <n>`: the packet at this place among all that were ever sent, from 1, arrives at the side that it is for.
    Carry(u64),
    /// `STOP L` or `STOP F`: this side is closed and opened again.
    Stop(LinkSide),
    /// `GET <target>`: this tile is asked of the follower.
    Get(Address),
}
