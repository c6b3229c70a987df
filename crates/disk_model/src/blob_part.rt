//! The type of a part of a blob.

/// Whose bytes are read or written: those of the blob that was rendered under a number, from a byte of it on.
#[derive(Clone, Copy, PartialEq, Eq)]
pub struct BlobPart {
    /// The number of the render.
    pub number: u64,
    /// Which byte of the blob is the first, counted from 0.
    pub from: u32,
}
