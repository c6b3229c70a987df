//! Why a text is no cover or no job, and the member at fault.

/// A member of a cover or a job.
#[derive(Clone, Copy, Debug, PartialEq, Eq)]
pub enum JobField {
    Layer,
    Grid,
    ZoomStart,
    ZoomStop,
    Bounds,
    Format,
    Style,
    Dimensions,
    Kind,
    Threads,
}

/// Why a text is no cover or no job.
#[derive(Clone, Copy, Debug, PartialEq, Eq)]
pub enum JobFault {
    /// The text isn't one JSON object.
    NotJson,
    /// The member has to be there.
    Missing(JobField),
    /// The member has another form, or names something that isn't there.
    Bad(JobField),
    /// The member has its form and is beyond its limit.
    Limit(JobField),
    /// Memory ran out.
    OutOfMemory,
}
