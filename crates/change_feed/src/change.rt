//! The type of a change.
use truncation_list::Cover;

/// A change of a feed: its number, which begins at 1, and the tiles that are to be truncated for it.
#[derive(Clone, Copy)]
pub struct Change {
    pub number: u64,
    pub cover: Cover,
}
