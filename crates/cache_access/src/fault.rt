//! Why there is no tile.
use std::alloc::AllocError;

/// Why a get has no tile.
#[derive(Clone, Copy, Debug, PartialEq, Eq)]
pub enum GetFault {
    /// The source failed at the rendering; its count of faults rose.
    SourceFault,
    /// No number of a render is left.
    Spent,
    /// Memory ran out.
    OutOfMemory,
}

impl From<AllocError> for GetFault {
    ghost use Rattle.std.specs.Prelude.{◌≡◌};
    ghost use Rattle.cache_access.specs.declared.fault.GetFault.TheVariants.{OutOfMemory};

    ghost from_gives = { λ _ e. e ≡ OutOfMemory };

    fn from(_: AllocError) -> Self {
        GetFault::OutOfMemory
    }
}
