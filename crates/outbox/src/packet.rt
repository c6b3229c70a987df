//! What a leader and a follower send each other.
use truncation_list::Cover;

/// What a leader and a follower send each other.
#[derive(Clone, Copy, PartialEq, Eq)]
pub enum Packet {
    /// The change of this number, from 1: the tiles that it truncates.
    Change(u64, Cover),
    /// All changes up to this number are in force, and marked so.
    Seen(u64),
}

/// How many bytes a packet has.
pub const PACKET_SIZE: usize = 64;
