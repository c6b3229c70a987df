//! How the action of a line ends, before its answer is written.
use tile_requests::{Outcome, Spelling};

/// What a line answers.
#[derive(Drop)]
pub struct LineAnswer {
    pub actor: u32,
    /// The line in which the request started, counted from 1.
    pub start: u64,
    /// How a tile is spelt in it.
    pub spelling: Spelling,
    pub outcome: Outcome,
}

/// How the action of a line ended, before its answer is written.
#[derive(Drop)]
pub enum ActionEnd {
    /// It is refused, and nothing happened.
    Refused,
    /// It was performed, and has no answer.
    Silent,
    /// It was performed, and this is its answer.
    Answers(LineAnswer),
}
