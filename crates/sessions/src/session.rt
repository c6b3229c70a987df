//! The messages of one connection, served in order, and how a session ends.
ghost use Rattle.std.specs.Io.KnownBytes.{Appends};
ghost use Rattle.std.specs.Prelude.{◌≡◌, OnErr, OnOk};
ghost use Rattle.base.specs.Causes.{HasCause};
ghost use Rattle.sessions.specs.Exchanges.{standing};
ghost use Rattle.sessions.specs.Outside.{InputChange, OutputChange, counts};
ghost use Rattle.sessions.specs.Responses.{MayTell};
ghost use Rattle.sessions.specs.Sessions.{IsHeld};
ghost use Rattle.source_render.specs.Renders.{renders};
ghost use Rattle.tile_requests.specs.Response.{closes, response};
ghost use Rattle.tile_requests.specs.Routes.{spelling_of};
ghost use Rattle.tile_requests.specs.Sent.{AppendsFront};
ghost use Rattle.tile_requests.specs.declared.outcome.Outcome.{Outcome};

use crate::coming::next_message;
use crate::responses::write_response;
use crate::server::MessageServer;
use http_wire::{Link, Message, MessageReader, Sent};
use source_render::Source;
use std::alloc::Global;
use tile_requests::spelling_at;

/// How many messages a session answers at most.
pub const SESSION_LIMIT: u64 = 10_000;

/// How a session ended.
#[derive(Clone, Copy, PartialEq, Eq)]
pub enum SessionEnd {
    /// The stream ended after a message, or its last message was answered.
    Closed,
    /// The stream ended within a message.
    Truncated,
    /// Bytes came that are no message; they were answered with this status.
    Bad(u16),
    /// A read of the link failed.
    ReadFault,
    /// A write of the link failed; no later message was looked for.
    WriteFault,
    /// The 10,000th message was answered, and it was not the last of its connection.
    TooMany,
    /// Memory ran out at the reading of a message. Want of memory for a request is answered, and ends no session.
    OutOfMemory,
}

/// Whether the response to a message closes its connection, by the message's place in its session, counted from 1.
fn closes(message: &Message, place: u64) -> bool
    ensures { result ≡ closes message.now place }
{
    message.last || place == SESSION_LIMIT
}

/// Serves the message at a place of its session, counted from 1, and writes its response. `Sent` where a write failed.
fn respond<M: MessageServer, S: Source, L: Link>(
    alloc: Global,
    server: &M,
    cache: &mut M::Cache,
    jobs: &mut M::Jobs,
    source: &mut S,
    link: &mut L,
    message: &Message,
    place: u64,
) -> Result<(), Sent>
    requires ready { M.ready server.now cache.old jobs.old (S.told source.old) }
    ensures responds { (o : Outcome) × M.serves server.now (S.told source.old) message.now o (standing cache.old jobs.old (renders (S.faults source.old) (S.gave source.old))) (standing cache.new jobs.new (renders (S.faults source.new) (S.gave source.new)))
        × OnOk result (MayTell (spelling_of message.now) o (λ x. Appends (L.taken link.old) (L.taken link.new) (response (M.document server.now cache.old) message.now place x)))
        × OnErr result (MayTell (spelling_of message.now) o (λ x. AppendsFront (L.taken link.old) (L.taken link.new) (response (M.document server.now cache.old) message.now place x))) }
    ensures ready { M.ready server.now cache.new jobs.new (S.told source.new) }
    ensures document { M.document server.now cache.new ≡ M.document server.now cache.old }
    ensures told { S.told source.new ≡ S.told source.old }
    ensures cause { HasCause (L.ByteSink.faults link.old) (L.ByteSink.faults link.new) result }
    ensures left { L.left link.new ≡ L.left link.old }
    ensures read_faults { L.ByteSource.faults link.new ≡ L.ByteSource.faults link.old }
{
    server.begin_message();
    let outcome = server.serve(alloc, cache, jobs, source, message);
    let sent = write_response(
        alloc,
        server.crc_tables(cache),
        server.capabilities(cache),
        link,
        spelling_at(message.target.bytes()),
        closes(message, place),
        &outcome,
    );
    drop(outcome);
    server.end_message();
    sent
}

/// Serves the messages of one connection (RFC 9112), in order, each before the next is looked for, at most 10,000 of them. Each end
/// comes as `SessionEnd` says.
pub fn hold_session<M: MessageServer, S: Source, L: Link>(
    alloc: Global,
    server: &M,
    cache: &mut M::Cache,
    jobs: &mut M::Jobs,
    source: &mut S,
    link: &mut L,
) -> SessionEnd
    requires ready { M.ready server.now cache.old jobs.old (S.told source.old) }
    ensures held { IsHeld (M.serves server.now (S.told source.old))
        (record { reads = counts (L.ByteSource.faults link.old) (L.ByteSource.faults link.new); from = L.left link.old; to = L.left link.new })
        (record { writes = counts (L.ByteSink.faults link.old) (L.ByteSink.faults link.new); from = L.taken link.old; to = L.taken link.new })
        (M.document server.now cache.old) (standing cache.old jobs.old (renders (S.faults source.old) (S.gave source.old))) (standing cache.new jobs.new (renders (S.faults source.new) (S.gave source.new))) result }
    ensures ready { M.ready server.now cache.new jobs.new (S.told source.new) }
    ensures document { M.document server.now cache.new ≡ M.document server.now cache.old }
    ensures told { S.told source.new ≡ S.told source.old }
{
    let Ok(mut reader) = MessageReader::new(alloc) else {
        return SessionEnd::OutOfMemory;
    };
    'serving: for answered in 0..SESSION_LIMIT {
        let message = match next_message(alloc, &mut reader, link) {
            Ok(message) => message,
            Err(end) => return end,
        };
        let sent = respond(
            alloc,
            server,
            cache,
            jobs,
            source,
            link,
            &message,
            answered + 1,
        );
        let is_last = message.last;
        drop(message);
        match sent {
            Ok(()) => {}
            Err(_) => return SessionEnd::WriteFault,
        }
        if is_last {
            return SessionEnd::Closed;
        }
    }
    SessionEnd::TooMany
}
