//! The three disks of a twin, lent and handed back.
use gate_journal::OpenFault;

/// The disks of a twin that is closed, each one the disk that was lent.
#[derive(Drop)]
pub struct TwinDisks<'d, 'm, 'o, D, M, N> {
    /// The disk of the cache.
    pub cache: &'d mut D,
    /// The disk of the marks.
    pub marks: &'m mut M,
    /// The disk of the outbox.
    pub outbox: &'o mut N,
}

/// A twin that wasn't opened.
#[derive(Drop)]
pub struct Unopened<'d, 'm, 'o, D, M, N> {
    /// Why the first of its files that wasn't opened was refused.
    pub cause: OpenFault,
    /// All three disks, closed.
    pub disks: TwinDisks<'d, 'm, 'o, D, M, N>,
}

/// A follower that wasn't opened.
#[derive(Drop)]
pub struct Unfollowed<'d, 'm, D, M> {
    /// Why the cache was refused, or else the marks.
    pub cause: OpenFault,
    /// The disk of the cache, closed.
    pub cache: &'d mut D,
    /// The disk of the marks, closed.
    pub marks: &'m mut M,
}
