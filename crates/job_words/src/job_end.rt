//! How the word `job` ends.
use command_status::Status;

/// How the word ended, and how many places of its job were rendered and could not be kept: 0 where no job was run.
#[derive(Clone, Copy, PartialEq, Eq)]
pub struct JobEnd {
    pub status: Status,
    pub unkept: u64,
}
