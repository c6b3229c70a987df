//! What the tests of journals and of files are called with.

/// The digest of a catalogue.
pub fn digest() -> [u8; 32] {
    [7; 32]
}

/// A body all of one byte.
pub fn body(byte: u8) -> [u8; 63] {
    [byte; 63]
}

/// Whether these are the bodies that were read.
pub fn are_bodies(read: &[[u8; 63]], bodies: &[[u8; 63]]) -> bool {
    read == bodies
}
