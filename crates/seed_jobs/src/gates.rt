//! Gates of members that run one job after the other.
use crate::gate::{Gate, OpenGate};

/// A gate that is told where a job begins and where it has ended.
pub trait JobGate: Gate {
    /// A job begins: the place that is come to next is the first one of the member there.
    fn begin(&mut self);

    /// The job has ended: all its members have done their work.
    fn end(&mut self);
}

impl JobGate for OpenGate {
    fn begin(&mut self) {}

    fn end(&mut self) {}
}
