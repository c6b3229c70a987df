//! The type of a twin. Its calls stand in files of their own.
use cabinet::Keeper;
use change_feed::Feed;
use disk_model::Disk;
use outbox::{Outbox, Packet};

/// A leader and a follower, and every packet that was ever sent between them. It needs one catalogue: that of the outbox is the
/// cabinet's, and each change that was sent has a cover of it.
#[derive(Drop)]
pub struct Twin<K: Keeper, M: Disk, N: Disk> {
    /// The follower's cabinet.
    pub cabinet: K,
    /// The follower's feed of changes, with the file of its marks.
    pub feed: Feed<M>,
    /// The leader's posts.
    pub outbox: Outbox<N>,
    /// What was sent, the first packet first: changes by the leader, and what the follower told as seen.
    pub sent: Vec<Packet>,
}
