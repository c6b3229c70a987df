//! What the calls of a feed can answer.

/// What a change comes to by its number.
#[derive(Clone, Copy, PartialEq, Eq)]
pub enum JudgedChange {
    /// It is at most the last one: it was made already.
    Repeated,
    /// It is above the last one, which has this number, by more than one: a change between them is missing.
    Gap(u64),
    /// It is the next.
    Next,
}

/// What became of a change.
#[derive(Clone, Copy, PartialEq, Eq)]
pub enum Applied {
    /// It was made already; nothing changed.
    Repeated,
    /// A change between the last one, which has this number, and it is missing; nothing changed.
    Gap(u64),
    /// The disk of the marks failed. `None`: before the cut, and no cut was made. With the number of a cut: behind it. The cut stands,
    /// and the last change is as before; the mark is undecided.
    FeedFault(Option<u64>),
    /// The cabinet has no number left; no cut was made.
    Spent,
    /// As many cuts would stay in force as may be; no cut was made.
    Full,
    /// The disk of the cabinet failed, whose count of faults was the first number before and is the second after; no cut was made.
    DiskFault(u64, u64),
    /// The truncation was done, and has this number; the change is marked as the last one.
    Done(u64),
}
