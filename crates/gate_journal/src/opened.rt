//! What an opening gives.
use crate::journal::Journal;

/// A journal that was opened, the bodies of its records in order, and the version that these are of: 1 or 2.
#[derive(Drop)]
pub struct Opened {
    pub journal: Journal,
    pub bodies: Vec<[u8; 63]>,
    pub version: u8,
}
