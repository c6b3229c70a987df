//! How a line ends.
use crate::order::LinkSide;

/// How a line ended.
#[derive(Clone, Copy, PartialEq, Eq)]
pub enum TwinLineEnd {
    /// Its order was answered, and the answer went out.
    Told,
    /// It orders a stop of this side, and nothing happened.
    Stop(LinkSide),
    /// It is no event of a lossy link, and nothing happened.
    Refused,
    /// Its order was answered, and a write of the answer failed.
    WriteFault,
    /// Memory ran out before there was an answer.
    OutOfMemory,
}
