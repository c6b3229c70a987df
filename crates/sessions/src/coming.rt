//! The next message of a session, or how the session ends where none comes.
ghost use Rattle.std.specs.Prelude.{◌≡◌, ◌≤◌, None, IfErr, IfOk};
ghost use Rattle.http_wire.specs.Answers.{IsPartOfTake};
ghost use Rattle.sessions.specs.Coming.{EndsUnmet, HasCome};

use crate::responses::write_refusal;
use crate::session::SessionEnd;
use http_wire::{Link, Message, MessageReader, Next, WireFault};
use std::alloc::Global;

/// The next message of a session, or how the session ends where none comes. Bytes that are no message are answered before it ends.
pub fn next_message<L: Link>(
    alloc: Global,
    reader: &mut MessageReader,
    link: &mut L,
) -> Result<Message, SessionEnd>
    requires going { reader.old.ended ≡ None }
    requires surplus { IsPartOfTake reader.old.held }
    ensures ok { IfOk result (λ m. HasCome
        (record { reads = L.ByteSource.faults link.old; writes = L.ByteSink.faults link.old; left = L.left link.old; taken = L.taken link.old })
        (record { reads = L.ByteSource.faults link.new; writes = L.ByteSink.faults link.new; left = L.left link.new; taken = L.taken link.new })
        reader.old.held reader.new m) }
    ensures err { IfErr result (λ end. EndsUnmet
        (record { reads = L.ByteSource.faults link.old; writes = L.ByteSink.faults link.old; left = L.left link.old; taken = L.taken link.old })
        (record { reads = L.ByteSource.faults link.new; writes = L.ByteSink.faults link.new; left = L.left link.new; taken = L.taken link.new })
        reader.old.held reader.new.held end) }
    ensures reads { L.ByteSource.faults link.old ≤ L.ByteSource.faults link.new }
{
    match reader.next(alloc, link) {
        Ok(Next::Message(message)) => Ok(message),
        Ok(Next::End) => Err(SessionEnd::Closed),
        Ok(Next::Truncated) => Err(SessionEnd::Truncated),
        Ok(Next::Bad(status)) => match write_refusal(link, status) {
            Ok(()) => Err(SessionEnd::Bad(status)),
            Err(_) => Err(SessionEnd::WriteFault),
        },
        Err(WireFault::ReadFault) => Err(SessionEnd::ReadFault),
        Err(WireFault::OutOfMemory) => Err(SessionEnd::OutOfMemory),
    }
}
