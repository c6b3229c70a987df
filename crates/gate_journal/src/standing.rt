//! The standings of a journal: settled, or as a failed call left it.

/// Whether the disk holds the records of a journal alone.
#[derive(Clone, Copy, PartialEq, Eq, Drop)]
pub enum Standing {
    Settled,
    /// A call failed, and no gate was written in it.
    Pending,
    /// A call failed that wrote a gate, which may be open or closed on the disk.
    Undecided,
}
