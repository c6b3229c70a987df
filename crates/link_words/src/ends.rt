//! How the words of a link end, and how that is told to the operator.
ghost use Rattle.std.specs.Prelude.{◌≡◌};
ghost use Rattle.link_words.specs.Endings.{ending_of, ending_of_link};

use command_status::{Status, status_of_opening};
use cut_follower::LinkEnd;
use gate_journal::OpenFault;
use std::fmt;

/// How the words of a link ended (`specs/Ends.antt`).
#[derive(Clone, Copy, PartialEq, Eq)]
pub enum LinkingEnd {
    /// As a command does. `Done` exactly where the link finished; `ReadFault` and `WriteFault` also where the link failed.
    Status(Status),
    /// The link was cut within a packet, brought what is no packet, brought too many, or a change was not made.
    Linked(LinkEnd),
}

/// The code that a process ends with whose link ended otherwise than a command can.
const LINK_CODE: u8 = 16;

impl LinkingEnd {
    /// The code that the process ends with.
    pub fn code(&self) -> u8 {
        match self {
            LinkingEnd::Status(status) => status.code(),
            LinkingEnd::Linked(_) => LINK_CODE,
        }
    }
}

/// The line that tells an end; `Done` has none.
impl fmt::Display for LinkingEnd {
    fn fmt<W: fmt::Write>(&self, f: &mut fmt::Formatter<W>) -> fmt::Result {
        match self {
            LinkingEnd::Status(status) => write!(f, "{status}"),
            LinkingEnd::Linked(end) => f.write_str(line_of(end)),
        }
    }
}

/// The line of an end of a link. Those that a command has, too, are told as its status, and have none here.
fn line_of(end: &LinkEnd) -> &'static str {
    match end {
        LinkEnd::Truncated => "link truncated",
        LinkEnd::BadPacket => "link bad packet",
        LinkEnd::Stopped(_) => "link stopped",
        LinkEnd::TooMany => "link too many",
        LinkEnd::Finished | LinkEnd::ReadFault | LinkEnd::WriteFault | LinkEnd::OutOfMemory => "",
    }
}

/// The end of words whose link ended so.
fn ending_of_link(end: LinkEnd) -> LinkingEnd
    ensures { result ≡ ending_of_link end }
{
    match end {
        LinkEnd::Finished => LinkingEnd::Status(Status::Done),
        LinkEnd::Truncated => LinkingEnd::Linked(LinkEnd::Truncated),
        LinkEnd::BadPacket => LinkingEnd::Linked(LinkEnd::BadPacket),
        LinkEnd::ReadFault => LinkingEnd::Status(Status::ReadFault),
        LinkEnd::WriteFault => LinkingEnd::Status(Status::WriteFault),
        LinkEnd::Stopped(applied) => LinkingEnd::Linked(LinkEnd::Stopped(applied)),
        LinkEnd::TooMany => LinkingEnd::Linked(LinkEnd::TooMany),
        LinkEnd::OutOfMemory => LinkingEnd::Status(Status::OutOfMemory),
    }
}

/// The end of words whose link ended so, or whose files weren't opened.
pub(crate) fn ending_of(end: Result<LinkEnd, OpenFault>) -> LinkingEnd
    ensures { result ≡ ending_of end }
{
    match end {
        Ok(end) => ending_of_link(end),
        Err(fault) => LinkingEnd::Status(status_of_opening(fault)),
    }
}
