//! The outcomes of all requests.
use arrayvec::ArrayVec;
use base::SharedText;
use exact_ratio::Words;
use exception_report::{Code, Locator};
use job_forms::JobFault;

/// How a request ended.
#[derive(Drop)]
pub enum Outcome {
    /// The tile: whether a kept one gave it, the number of its render, and the encoded tile.
    Tile(bool, u64, SharedText),
    /// The capabilities document, as the operator wrote it. It is borrowed where the response is made.
    Document,
    /// The request is refused.
    Refused(Code, Locator),
    /// The source failed at the rendering.
    SourceFailed,
    /// What is kept, as text.
    Usage(Words),
    /// The truncation was done, and has this number.
    Cut(u64),
    /// The text of a truncation is no cover.
    Unformed(JobFault),
    /// The expiry dropped a metatile, which this JSON text names.
    Dropped(Words),
    /// What is told of a job of a server, as a JSON text.
    Job(Words),
    /// An encoded tile of several parts, behind the number of the render of each part, in the order of the parts.
    Composite(ArrayVec<u64, 8>, Words),
    /// What has one response, whatever was asked for.
    Plain(Plain),
}

/// An outcome with one response, which takes no memory.
#[derive(Clone, Copy, PartialEq, Eq)]
pub enum Plain {
    /// Nothing stands at the request's path.
    NotFound,
    /// The request's path takes another method.
    WrongMethod,
    /// No number of a render is left.
    Spent,
    /// As many truncations would stay in force as may be.
    CutsFull,
    /// No number is left for a truncation.
    CutSpent,
    /// No quota is exceeded; nothing was dropped.
    Within,
    /// As many jobs wait at a server as may, or as many were submitted as ever may be.
    BoardFull,
    /// The disk failed at a truncation or an expiry, which was not done.
    DiskFault,
    /// Memory ran out.
    NoMemory,
}
