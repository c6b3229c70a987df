//! The status of each end of the work, and of each refusal before it, once for all words.
ghost use Rattle.std.specs.Prelude.{◌≡◌};
ghost use Rattle.command_status.specs.Statuses.{status_of_form, status_of_input, status_of_opening, status_of_schedule, status_of_session};

use crate::status::Status;
use gate_journal::OpenFault;
use http_wire::InputEnd;
use job_forms::JobFault;
use sessions::SessionEnd;
use tile_service::ScheduleEnd;

/// The status of words one of whose files isn't opened. A fault of its disk and want of memory have statuses of their own.
pub fn status_of_opening(fault: OpenFault) -> Status
    ensures { result ≡ status_of_opening fault }
{
    match fault {
        OpenFault::NotACache => Status::Cache(OpenFault::NotACache),
        OpenFault::CatalogueDiffers(found, asked) => {
            Status::Cache(OpenFault::CatalogueDiffers(found, asked))
        }
        OpenFault::BadRecord(slot) => Status::Cache(OpenFault::BadRecord(slot)),
        OpenFault::Spent => Status::Cache(OpenFault::Spent),
        OpenFault::DiskFault => Status::DiskFault,
        OpenFault::OutOfMemory => Status::OutOfMemory,
    }
}

/// The status of words whose input isn't read to its end.
pub fn status_of_input(end: InputEnd) -> Status
    ensures { result ≡ status_of_input end }
{
    match end {
        InputEnd::ReadFault => Status::ReadFault,
        InputEnd::TooLong => Status::TooLong,
        InputEnd::OutOfMemory => Status::OutOfMemory,
    }
}

/// The status of words whose cover or job has this fault. Want of memory has a status of its own.
pub fn status_of_form(fault: JobFault) -> Status
    ensures { result ≡ status_of_form fault }
{
    match fault {
        JobFault::NotJson => Status::Form(JobFault::NotJson),
        JobFault::Missing(field) => Status::Form(JobFault::Missing(field)),
        JobFault::Bad(field) => Status::Form(JobFault::Bad(field)),
        JobFault::Limit(field) => Status::Form(JobFault::Limit(field)),
        JobFault::OutOfMemory => Status::OutOfMemory,
    }
}

/// The status of a schedule's end.
pub fn status_of_schedule(end: ScheduleEnd) -> Status
    ensures { result ≡ status_of_schedule end }
{
    match end {
        ScheduleEnd::Done => Status::Done,
        ScheduleEnd::Line(n) => Status::Line(n),
        ScheduleEnd::ReadFault => Status::ReadFault,
        ScheduleEnd::WriteFault => Status::WriteFault,
        ScheduleEnd::TooLong => Status::TooLong,
        ScheduleEnd::OutOfMemory => Status::OutOfMemory,
    }
}

/// The status of a session's end.
pub fn status_of_session(end: SessionEnd) -> Status
    ensures { result ≡ status_of_session end }
{
    match end {
        SessionEnd::Closed => Status::Done,
        SessionEnd::Truncated => Status::Stream(SessionEnd::Truncated),
        SessionEnd::Bad(code) => Status::Stream(SessionEnd::Bad(code)),
        SessionEnd::TooMany => Status::Stream(SessionEnd::TooMany),
        SessionEnd::ReadFault => Status::ReadFault,
        SessionEnd::WriteFault => Status::WriteFault,
        SessionEnd::OutOfMemory => Status::OutOfMemory,
    }
}
