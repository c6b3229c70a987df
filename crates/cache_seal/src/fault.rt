//! Why a cache isn't sealed.
use gate_journal::OpenFault;

/// Why a cache isn't sealed.
#[derive(Clone, Copy, Debug, PartialEq, Eq, Drop)]
pub enum SealFault {
    /// The disk is refused as an opening of its cache refuses it.
    Cache(OpenFault),
    /// A sum couldn't be written.
    Sums,
    OutOfMemory,
}
