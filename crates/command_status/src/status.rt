//! How a command ended, and how that is told to the operator: the code that the process ends with, and a line.
//!
//! A composition and a link have further ends: those are told by 15 (`compose_words::end`) and 16 (`link_words::ends`).
use catalog::{CatalogueFault, Field};
use gate_journal::OpenFault;
use job_forms::{JobFault, JobField};
use sessions::SessionEnd;
use std::fmt;

/// How a command ended. Each means the same for all words (`specs/Statuses.antt`).
#[derive(Clone, Copy, PartialEq, Eq)]
pub enum Status {
    /// The input, where the words take one, was read to its end, or to the last message of its connection, and all was
    /// written. A server served as many links as it was asked for, each to its end.
    Done,
    /// The words are no command.
    Usage,
    /// The catalogue has this fault.
    Catalogue(CatalogueFault),
    /// A read of the catalogue, of the capabilities or of the input failed.
    ReadFault,
    /// A write of the output failed.
    WriteFault,
    /// The disk failed: at the opening or the making of the cache, at the one cut, or at an expiry. Within a schedule, a
    /// connection or a job a fault of the disk ends nothing.
    DiskFault,
    /// This line of the schedule was refused, counted from 1; the lines before it were run and answered.
    Line(u64),
    /// The cache isn't opened for this cause, which is neither a fault of the disk nor want of memory; or no number is left for
    /// a cut.
    Cache(OpenFault),
    /// As many cuts would stay in force as may be; the one cut was not made.
    CutsFull,
    /// Memory ran out: before the work, before the first line of a schedule, between the lines of a drill, at the reading of a
    /// message of a connection, or at the one cut.
    OutOfMemory,
    /// The bytes of a connection ended within a message, held bytes that are no message, or went on after as many messages
    /// as a session answers. The messages before that were answered.
    Stream(SessionEnd),
    /// The catalogue, the capabilities document, the schedule, the cover or the job has more bytes than it may have.
    TooLong,
    /// The cover or the job has this fault.
    Form(JobFault),
    /// No connection is had: the port can't be had, nobody waits at it, or the listener failed to give a further one.
    ListenFault,
    /// The threads that serve can't be made. No connection was taken.
    ThreadFault,
}

impl Status {
    /// The code that the process ends with.
    pub fn code(&self) -> u8 {
        match self {
            Status::Done => 0,
            Status::Usage => 2,
            Status::Catalogue(_) => 3,
            Status::ReadFault => 4,
            Status::WriteFault => 5,
            Status::DiskFault => 6,
            Status::Line(_) => 7,
            Status::Cache(_) => 8,
            Status::CutsFull => 9,
            Status::OutOfMemory => 10,
            Status::Stream(_) => 11,
            Status::TooLong => 12,
            Status::Form(_) => 13,
            Status::ListenFault => 14,
            Status::ThreadFault => 18,
        }
    }
}

/// The line that tells a status; `Done` has none.
impl fmt::Display for Status {
    fn fmt<W: fmt::Write>(&self, f: &mut fmt::Formatter<W>) -> fmt::Result {
        match self {
            Status::Catalogue(fault) => write_fault(f, *fault),
            Status::Line(line) => write!(f, "line {line}"),
            Status::Cache(fault) => write_refusal(f, fault),
            Status::Stream(end) => write_end(f, *end),
            Status::Form(fault) => write_form(f, *fault),
            plain => f.write_str(line_of(plain)),
        }
    }
}

/// The line of a status that has no values. That of one that has some is written by a function of its own.
fn line_of(status: &Status) -> &'static str {
    match status {
        Status::Usage => "usage",
        Status::ReadFault => "read fault",
        Status::WriteFault => "write fault",
        Status::DiskFault => "disk fault",
        Status::CutsFull => "cuts full",
        Status::OutOfMemory => "out of memory",
        Status::TooLong => "too long",
        Status::ListenFault => "listen fault",
        Status::ThreadFault => "thread fault",
        Status::Done
        | Status::Catalogue(_)
        | Status::Line(_)
        | Status::Cache(_)
        | Status::Stream(_)
        | Status::Form(_) => "",
    }
}

/// Writes a catalogue's fault: its kind, its member and the place of the member's object.
fn write_fault<W: fmt::Write>(f: &mut fmt::Formatter<W>, fault: CatalogueFault) -> fmt::Result {
    match fault {
        CatalogueFault::NotJson => f.write_str("catalogue not json  0"),
        CatalogueFault::Missing(field, at) => write_placed(f, "missing", field, at),
        CatalogueFault::Bad(field, at) => write_placed(f, "bad", field, at),
        CatalogueFault::Duplicate(field, at) => write_placed(f, "duplicate", field, at),
        CatalogueFault::Limit(field, at) => write_placed(f, "limit", field, at),
        CatalogueFault::OutOfMemory => f.write_str("out of memory"),
    }
}

/// Writes the kind of a catalogue's fault, and what is at fault.
fn write_placed<W: fmt::Write>(
    f: &mut fmt::Formatter<W>,
    kind: &str,
    field: Field,
    at: u32,
) -> fmt::Result {
    write!(f, "catalogue {kind} {field:?} {at}")
}

/// Writes why a cache isn't opened.
fn write_refusal<W: fmt::Write>(f: &mut fmt::Formatter<W>, fault: &OpenFault) -> fmt::Result {
    match fault {
        OpenFault::CatalogueDiffers(kept, asked) => write_digests(f, kept, asked),
        OpenFault::BadRecord(slot) => write!(f, "bad record {slot}"),
        plain => f.write_str(refusal_of(plain)),
    }
}

/// The line of a refusal that has no values.
fn refusal_of(fault: &OpenFault) -> &'static str {
    match fault {
        OpenFault::NotACache => "not a cache",
        OpenFault::Spent => "openings spent",
        OpenFault::DiskFault => "disk fault",
        OpenFault::OutOfMemory => "out of memory",
        OpenFault::CatalogueDiffers(_, _) | OpenFault::BadRecord(_) => "",
    }
}

/// Writes that the cache is that of another catalogue, by the digests of both.
fn write_digests<W: fmt::Write>(
    f: &mut fmt::Formatter<W>,
    kept: &[u8; 32],
    asked: &[u8; 32],
) -> fmt::Result {
    f.write_str("catalogue differs ")?;
    write_hex(f, kept)?;
    f.write_str(" ")?;
    write_hex(f, asked)
}

/// Writes a digest, two hexadecimal digits a byte.
fn write_hex<W: fmt::Write>(f: &mut fmt::Formatter<W>, digest: &[u8; 32]) -> fmt::Result {
    for byte in digest {
        write!(f, "{byte:02x}")?;
    }
    Ok(())
}

/// Writes the fault of a cover or a job: its kind and its member.
fn write_form<W: fmt::Write>(f: &mut fmt::Formatter<W>, fault: JobFault) -> fmt::Result {
    match fault {
        JobFault::NotJson => f.write_str("form not json "),
        JobFault::Missing(field) => write_member(f, "missing", field),
        JobFault::Bad(field) => write_member(f, "bad", field),
        JobFault::Limit(field) => write_member(f, "limit", field),
        JobFault::OutOfMemory => f.write_str("out of memory"),
    }
}

/// Writes the kind of a form's fault, and its member.
fn write_member<W: fmt::Write>(
    f: &mut fmt::Formatter<W>,
    kind: &str,
    field: JobField,
) -> fmt::Result {
    write!(f, "form {kind} {field:?}")
}

/// Writes how a session ended within its stream. The other ends have statuses of their own, and nothing here.
fn write_end<W: fmt::Write>(f: &mut fmt::Formatter<W>, end: SessionEnd) -> fmt::Result {
    match end {
        SessionEnd::Truncated => f.write_str("stream truncated"),
        SessionEnd::Bad(status) => write!(f, "stream bad {status}"),
        SessionEnd::TooMany => f.write_str("stream too many"),
        SessionEnd::Closed
        | SessionEnd::ReadFault
        | SessionEnd::WriteFault
        | SessionEnd::OutOfMemory => Ok(()),
    }
}
