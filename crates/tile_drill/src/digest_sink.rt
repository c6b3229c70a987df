//! A sink that keeps only the digest of its bytes. The bytes themselves stand in a history that proofs alone read.
ghost use Rattle.std.specs.Prelude.{◌≡◌, ◌++◌, Some};
ghost use Rattle.sha2.specs.Sha256.{sha256};

use base::Trace;
use http_wire::{ByteSink, Failed};
use sha2::{Digest, Sha256};
use std::marker::Model;

/// Keeps of the bytes that it takes only their digest. It never fails. Clauses read it as the bytes.
#[derive(Drop)]
pub struct DigestSink {
    hasher: Sha256,
    taken: Trace<u8>,
}

impl Model for DigestSink {
    ghost use Rattle.std.specs.Prelude.{List, ℕ};
    ghost use Rattle.sha2.specs.Hashers.{Holds256};

    ghost Value = { List ℕ };

    ghost view = { λ s. s.taken.entries };

    ghost invariant = { λ s. Holds256 s.hasher s.taken.entries };
}

/// Adds bytes to a history. At run time there is nothing to do.
fn note(history: &mut Trace<u8>, bytes: &[u8])
    ensures { history.new.entries ≡ history.old.entries ++ bytes.now }
{
    'noting: for byte in bytes {
        *history = history.and(byte);
    }
}

impl DigestSink {
    ghost use Rattle.std.specs.Prelude.{[]};

    /// A sink that has taken nothing.
    pub fn new() -> DigestSink
        ensures { result ≡ [] }
    {
        DigestSink {
            hasher: Sha256::new(),
            taken: Trace::new(),
        }
    }

    /// The SHA-256 of the bytes that were taken (FIPS 180-4).
    pub fn digest(self) -> [u8; 32]
        ensures { result ≡ sha256 self }
    {
        self.hasher.finalize()
    }
}

impl ByteSink for DigestSink {
    ghost taken = { λ s. Some s };

    ghost faults = { λ _. 0 };

    fn put(&mut self, bytes: &[u8]) -> Result<usize, Failed> {
        self.hasher.update(bytes);
        note(&mut self.taken, bytes);
        Ok(bytes.len())
    }
}
