//! What a post comes to.

/// What became of a cover that was posted.
#[derive(Clone, Copy, PartialEq, Eq)]
pub enum Posted {
    /// It is the change of this number, and every image of the disk has it.
    Done(u64),
    /// The outbox has as many posts as it can hold, 65,536.
    Full,
    /// The disk failed, whose count of faults was the first number before and is the second after. The posts are as before; where the
    /// record was being written this one is undecided: an image may have it.
    DiskFault(u64, u64),
}
