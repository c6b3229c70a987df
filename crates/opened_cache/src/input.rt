//! The input of a word, read to its end.
ghost use Rattle.std.specs.Io.KnownBytes.{Consumes, IsAtEnd};
ghost use Rattle.std.specs.Prelude.{◌≤◌, IfErr, IfOk, length};
ghost use Rattle.opened_cache.specs.Inputs.{HasNoText};
ghost use Rattle.sessions.specs.Outside.{InputChange};

use command_status::{Status, status_of_input};
use http_wire::{ByteSource, read_all};
use std::alloc::Global;

/// Reads the text that an input has, of at most `limit` bytes: `ReadFault` where a read failed, `TooLong` where it has more bytes, and
/// `OutOfMemory` where memory ran out.
pub fn text_in<I: ByteSource>(alloc: Global, input: &mut I, limit: usize) -> Result<Vec<u8>, Status>
    ensures whole { IfOk result (λ text. Consumes (I.left input.old) (I.left input.new) text.items × IsAtEnd (I.left input.new) × (length text.items ≤ limit)) }
    ensures none { IfErr result (λ status. HasNoText limit (record { reads = record { before = I.faults input.old; after = I.faults input.new }; from = I.left input.old; to = I.left input.new }) status) }
{
    match read_all(alloc, input, limit) {
        Ok(text) => Ok(text),
        Err(end) => Err(status_of_input(end)),
    }
}
