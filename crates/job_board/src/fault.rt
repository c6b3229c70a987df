//! Why a job isn't submitted.
use std::alloc::AllocError;

/// Why a job isn't submitted.
#[derive(Clone, Copy, Debug, PartialEq, Eq)]
pub enum BoardFault {
    /// 64 jobs wait, or 1,024 were submitted.
    Full,
    /// Memory ran out.
    OutOfMemory,
}

impl From<AllocError> for BoardFault {
    ghost use Rattle.std.specs.Prelude.{◌≡◌};
    ghost use Rattle.job_board.specs.declared.fault.BoardFault.TheVariants.{OutOfMemory};

    ghost from_gives = { λ _ fault. fault ≡ OutOfMemory };

    fn from(_: AllocError) -> Self {
        BoardFault::OutOfMemory
    }
}
