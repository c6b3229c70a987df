//! The status of words whose catalogue or capabilities document was refused.
ghost use Rattle.std.specs.Prelude.{◌≡◌};
ghost use Rattle.command_setup.specs.Refusals.{status_of_refusal};

use crate::configuration::Unconfigured;
use command_status::Status;

/// The status of words whose catalogue or capabilities document was refused.
pub fn status_of_refusal(refusal: Unconfigured) -> Status
    ensures { result ≡ status_of_refusal refusal }
{
    match refusal {
        Unconfigured::ReadFault => Status::ReadFault,
        Unconfigured::TooLong => Status::TooLong,
        Unconfigured::Fault(fault) => Status::Catalogue(fault),
        Unconfigured::OutOfMemory => Status::OutOfMemory,
    }
}
