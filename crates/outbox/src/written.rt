//! What the writing of a record comes to.

/// What became of the record of a post.
#[derive(Clone, Copy)]
pub(crate) enum Written {
    /// It wasn't begun: the file couldn't be settled.
    Unready,
    /// Its writing failed, so that an image may have it.
    Undecided,
    /// Every image has it.
    Added,
}
