//! A source read to its end, up to a limit.
ghost use Rattle.std.specs.Io.KnownBytes.{Consumes, IsAtEnd};
ghost use Rattle.std.specs.Prelude.{◌≡◌, ◌≤◌, ◌+◌, ℕ, List, length, IfOk};
ghost use Rattle.base.specs.Causes.{Rose};

use crate::streams::ByteSource;
use std::alloc::Global;

/// Why an input was not read to its end.
#[derive(Clone, Copy, PartialEq, Eq)]
pub enum InputEnd {
    /// A read failed.
    ReadFault,
    /// More bytes stand than the limit lets in.
    TooLong,
    /// Memory ran out.
    OutOfMemory,
}

/// Reads all that a source has, at most `limit` bytes. `ReadFault` only where a read failed; `TooLong` exactly where one
/// byte more than the limit was taken; `OutOfMemory` where memory runs out. What was taken before is lost then.
pub fn read_all<I: ByteSource>(
    alloc: Global,
    input: &mut I,
    limit: usize,
) -> Result<Vec<u8>, InputEnd>
    ensures whole { IfOk result (λ text. Consumes (I.left input.old) (I.left input.new) text.items × IsAtEnd (I.left input.new) × (length text.items ≤ limit)) }
    ensures fault { result ≡ Err InputEnd.ReadFault → Rose (I.faults input.old) (I.faults input.new) }
    ensures long { result ≡ Err InputEnd.TooLong → (bytes : List ℕ) × Consumes (I.left input.old) (I.left input.new) bytes × (length bytes ≡ limit + 1) }
    ensures short { result ≡ Err InputEnd.ReadFault → (bytes : List ℕ) × Consumes (I.left input.old) (I.left input.new) bytes × (length bytes ≤ limit) }
    ensures memory { result ≡ Err InputEnd.OutOfMemory → (bytes : List ℕ) × Consumes (I.left input.old) (I.left input.new) bytes × (length bytes ≤ limit + 1) }
    ensures later { I.faults input.old ≤ I.faults input.new }
    ensures apart { I.apart input.new ≡ I.apart input.old }
{
    let mut text = Vec::new(alloc);
    'reading: while text.len() <= limit {
        let mut chunk = [0; 4096];
        let room = (limit - text.len()).min(4095) + 1;
        let (piece, _) = chunk.split_at_mut(room);
        let Ok(count) = input.take(piece) else {
            return Err(InputEnd::ReadFault);
        };
        if count == 0 {
            return Ok(text);
        }
        if text.extend_from_slice(&piece[..count]).is_err() {
            return Err(InputEnd::OutOfMemory);
        }
    }
    Err(InputEnd::TooLong)
}
