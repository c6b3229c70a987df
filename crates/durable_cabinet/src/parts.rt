//! What a cabinet is taken apart into.
use base::Clock;

/// The clock and the disk of a cabinet.
#[derive(Drop)]
pub struct Parts<D> {
    pub clock: Clock,
    pub disk: D,
}
