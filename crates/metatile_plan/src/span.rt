//! The type of a part of a text or a blob.

/// A part of a text or a blob, in bytes.
#[derive(Clone, Copy, PartialEq, Eq)]
pub struct Span {
    pub start: u32,
    pub length: u32,
}
