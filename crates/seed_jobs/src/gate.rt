//! Gates, where a worker stops between the claim of a place and the work there.

/// What a worker calls at each place. Tests hold it there.
pub trait Gate: Drop {
    /// A place was claimed, and the work there is about to begin. No turn is under way.
    fn at(&mut self, place: u64);
}

/// The gate that holds nobody.
#[derive(Drop)]
pub struct OpenGate;

impl Gate for OpenGate {
    fn at(&mut self, _place: u64) {}
}
