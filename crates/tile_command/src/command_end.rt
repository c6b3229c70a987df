//! How a command ends.
ghost use Rattle.std.specs.Prelude.{◌≡◌};

use command_status::Status;

/// How a command ended, and how many places of its job were rendered and could not be kept: 0 where the words are no job, or none was run.
#[derive(Clone, Copy, PartialEq, Eq)]
pub struct CommandEnd {
    pub status: Status,
    pub unkept: u64,
}

/// The end of words that are no job.
pub fn without_job(status: Status) -> CommandEnd
    ensures { result ≡ record { status = status; unkept = 0 } }
{
    CommandEnd { status, unkept: 0 }
}
