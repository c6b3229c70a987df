//! The header of a half: its magic, which names its version, its generation and its digest.
ghost use Rattle.std.specs.Int.{w64, to_be_bytes};
ghost use Rattle.std.specs.Prelude.{◌≡◌, ◌++◌, replicate};
ghost use Rattle.gate_journal.specs.Opened.{magic};

/// What a header of version 1 begins with. Such headers are read, and never written.
pub(crate) const MAGIC_OF_1: [u8; 8] = *b"WMTSJNL1";

/// What a header of version 2 begins with.
pub(crate) const MAGIC_OF_2: [u8; 8] = *b"WMTSJNL2";

/// What a header that counts says.
#[derive(Clone, Copy, Drop)]
pub(crate) struct Header {
    pub(crate) version: u8,
    pub(crate) generation: u64,
    pub(crate) digest: [u8; 32],
}

/// The body of a header of version 2: the magic, the generation, the digest and 15 zeros.
pub(crate) fn header_body(generation: u64, digest: &[u8; 32]) -> [u8; 63]
    ensures { result ≡ magic 2 ++ to_be_bytes w64 generation ++ digest.now ++ replicate 15 0 }
{
    let mut body = [0; 63];
    body[..8].copy_from_slice(&MAGIC_OF_2);
    body[8..16].copy_from_slice(&generation.to_be_bytes());
    body[16..48].copy_from_slice(digest);
    body
}
