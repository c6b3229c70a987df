//! The type of a mark.

/// The mark of a change that was made: its number, and the number of its cut.
#[derive(Clone, Copy, PartialEq, Eq)]
pub struct Mark {
    pub number: u64,
    pub cut: u64,
}
