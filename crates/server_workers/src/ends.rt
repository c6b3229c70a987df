//! How the serving of a listener's links ends.

/// How the serving of a listener's links over a hall ended (`specs/Served.antt`).
#[derive(Clone, Copy, PartialEq, Eq)]
pub enum ServiceEnd {
    /// The listener gave as many links as were asked for, and each of them was served in one session, to its end.
    Done,
    /// The listener failed to give a further link. Each link given before was served likewise.
    ListenFault,
    /// Memory ran out before the first link.
    OutOfMemory,
    /// The threads that serve can't be made. The listener was asked for no link.
    NoThreads,
}
