//! The types of a cut and of a book: the cuts in force with a floor, alone and with the last number that was given.
use crate::cover::Cover;
use exact_ratio::Items;

/// A truncation that was done: its number, and the tiles that it is for.
#[derive(Clone, Copy, PartialEq, Eq)]
pub struct Cut {
    pub number: u64,
    pub cover: Cover,
}

/// The cuts in force by number, the least first, and a floor: each cut up to it is answered for without being listed.
#[derive(Drop)]
pub struct Book {
    pub cuts: Items<Cut>,
    pub floor: u64,
}

/// A book with a front, the last number that its owner has given.
#[derive(Drop)]
pub struct FrontedBook {
    pub book: Book,
    pub front: u64,
}
