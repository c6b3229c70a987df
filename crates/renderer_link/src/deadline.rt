//! A bound on the time of an exchange.
use crate::fault::RendererFault;
use std::time::{Clock, Duration};

/// The moment at which an exchange has to be over.
#[derive(Clone, Copy)]
pub struct Deadline {
    at: Duration,
}

/// The moment now. A clock that can't be read is a fault of the stream, since nothing may then be waited for.
fn now<R: Clock>(rt: &R) -> Result<Duration, RendererFault> {
    rt.monotonic()
        .map_err(|error| RendererFault::Stream(error.kind()))
}

impl Deadline {
    /// So many seconds from now.
    pub fn after<R: Clock>(rt: &R, seconds: u32) -> Result<Deadline, RendererFault> {
        match now(rt)?.checked_add(Duration::from_secs(u64::from(seconds))) {
            Some(at) => Ok(Deadline { at }),
            None => Err(RendererFault::Late),
        }
    }

    /// The time that is left, which is some; `Late` where none is.
    pub fn left<R: Clock>(&self, rt: &R) -> Result<Duration, RendererFault> {
        match self.at.checked_sub(now(rt)?) {
            Some(left) if left > Duration::ZERO => Ok(left),
            _ => Err(RendererFault::Late),
        }
    }
}
