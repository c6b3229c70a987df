//! How a sheet stands at one moment, for contracts alone. No value of these types is made.
use std::collections::LinkedList;

/// Whether a hand has met None, and why: all places were claimed, or the job was cancelled.
pub enum HandEnd {
    Open,
    AllClaimed,
    Cancelled,
}

/// What one hand has claimed, in order, how many of these places it has reported done and failed, how many of those done it has reported
/// not kept, and whether it has met None.
pub struct HandAccount {
    pub claimed: LinkedList<u64>,
    pub done: u64,
    pub unkept: u64,
    pub failed: u64,
    pub end: HandEnd,
}

/// The accounts of all hands of a sheet, in the order of their numbers, and whether the job is cancelled.
pub struct SheetStanding {
    pub accounts: LinkedList<HandAccount>,
    pub cancelled: bool,
}
