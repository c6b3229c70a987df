//! What the system said of a file where one of its calls failed.
use std::{fmt, io};

/// What was asked of a file.
#[derive(Clone, Copy, PartialEq, Eq)]
pub enum FileCall {
    /// To be opened.
    Open,
    /// To be this program's alone.
    Lock,
    Read,
    Write,
    /// To have another length.
    Cut,
    Sync,
}

/// A call of a file that failed, and what the system said.
#[derive(Clone, Copy)]
pub struct FileFault {
    pub call: FileCall,
    /// The first byte that was asked for, or the length; 0 where the call is of the whole file.
    pub at: u64,
    /// The system's number of the error; `None` where it gave none, as where the file ends before what is to be read.
    pub code: Option<i32>,
}

impl FileFault {
    /// The fault of a call, by the system's error.
    pub fn of(call: FileCall, at: u64, error: &io::Error) -> FileFault {
        FileFault {
            call,
            at,
            code: error.raw_os_error(),
        }
    }
}

/// The call in words, before what the system said.
impl fmt::Display for FileCall {
    fn fmt<W: fmt::Write>(&self, f: &mut fmt::Formatter<W>) -> fmt::Result {
        f.write_str(match self {
            FileCall::Open => "open",
            FileCall::Lock => "lock",
            FileCall::Read => "read",
            FileCall::Write => "write",
            FileCall::Cut => "set length",
            FileCall::Sync => "sync",
        })
    }
}

/// What was asked, and what the system said, as `write at 1048576: No space left on device (os error 28)`.
impl fmt::Display for FileFault {
    fn fmt<W: fmt::Write>(&self, f: &mut fmt::Formatter<W>) -> fmt::Result {
        let (call, at) = (self.call, self.at);
        match call {
            FileCall::Read | FileCall::Write => write!(f, "{call} at {at}: ")?,
            FileCall::Cut => write!(f, "{call} to {at}: ")?,
            FileCall::Open | FileCall::Lock | FileCall::Sync => write!(f, "{call}: ")?,
        }
        match self.code {
            Some(code) => write!(f, "{}", io::Error::from_raw_os_error(code)),
            None => f.write_str("the file ends before it"),
        }
    }
}
