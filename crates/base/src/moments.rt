//! Where a clock takes its moments from.
use std::time::Clock;
use std::vec::IntoIter;

/// Moments, in seconds.
#[derive(Drop)]
pub enum Moments {
    /// Those that were listed beforehand and weren't given yet.
    Listed(IntoIter<u64>),
    /// The time of day.
    System(HostRuntime),
}

impl Moments {
    /// The next moment; `None` where none is left, or the time of day can't be read.
    pub fn next(&mut self) -> Option<u64> {
        match self {
            Moments::Listed(moments) => moments.next(),
            Moments::System(system) => match system.since_1970() {
                Ok(since) => Some(since.as_secs()),
                Err(_) => None,
            },
        }
    }
}
