//! Texts: vectors of bytes that contracts see as lists of bytes.
ghost use Rattle.std.specs.Prelude.{◌≡◌, IfOk};

use std::alloc::{AllocError, Global};
use std::marker::Model;

/// A short text, as an identifier. Contracts see it as its bytes.
#[derive(Drop)]
pub struct Words {
    bytes: Vec<u8>,
}

impl Model for Words {
    ghost use Rattle.std.specs.Prelude.{ℕ, List};

    ghost Value = { List ℕ };

    ghost view = { λ w. w.bytes.items };
}

impl Words {
    /// A copy of the bytes. `AllocError` where memory runs out.
    pub fn new(alloc: Global, bytes: &[u8]) -> Result<Words, AllocError>
        ensures { IfOk result (λ w. w ≡ bytes.now) }
    {
        Ok(Words {
            bytes: Vec::from_slice(alloc, bytes)?,
        })
    }

    /// The bytes of a vector, which is taken over and not copied.
    pub fn of(bytes: Vec<u8>) -> Words
        ensures { result ≡ bytes.items }
    {
        Words { bytes }
    }

    /// The bytes of the text.
    pub fn bytes(&self) -> &[u8]
        ensures { result.now ≡ self.now }
    {
        self.bytes.as_slice()
    }

    /// The bytes as a vector again, with no memory taken.
    pub fn into_vec(self) -> Vec<u8>
        ensures { result.items ≡ self }
    {
        self.bytes
    }
}
