//! The order in time of a connection's takes and puts, which no clause tells: each response has gone out whole before the link
//! is asked for the next message.
ghost use Rattle.std.specs.Prelude.{Some, refl};
ghost use Rattle.catalog.specs.Valid.{IsValid};
ghost use Rattle.http_wire.specs.Side.{side};
ghost use Rattle.tile_service.specs.Session.{IsAtRest};

use crate::pair::empty;
use cabinet::Keeper;
use exact_ratio::Words;
use http_wire::{ByteSink, ByteSource, Failed, Link, MemorySink, MemorySource};
use sessions::SessionEnd;
use source_render::Numbered;
use std::alloc::{AllocError, Global};
use std::test::Fail;
use tile_requests::Tables;
use tile_service::{Counter, replay_session};

/// A connection in memory that notes, at each take, how many bytes have been put by then.
#[derive(Drop)]
struct NotingLink {
    source: MemorySource,
    sink: MemorySink,
    put_by_then: Vec<usize>,
}

impl ByteSource for NotingLink {
    ghost left = { λ link. Some link.source.left };

    ghost faults = { λ link. link.source.faults };

    ghost apart = { λ link. side (Some link.sink.taken) link.sink.faults };

    fn take(&mut self, into: &mut [u8]) -> Result<usize, Failed> {
        let _ = self.put_by_then.push(self.sink.taken().len());
        self.source.take(into)
    }
}

impl ByteSink for NotingLink {
    ghost taken = { λ link. Some link.sink.taken };

    ghost faults = { λ link. link.sink.faults };

    ghost apart = { λ link. side (Some link.source.left) link.source.faults };

    fn put(&mut self, bytes: &[u8]) -> Result<usize, Failed> {
        self.sink.put(bytes)
    }
}

impl Link for NotingLink {
    ghost take_keeps = { λ link. refl };

    ghost put_keeps = { λ link. refl };
}

/// A link of these bytes, so many at a time.
fn link_of(alloc: Global, bytes: &[u8], piece: usize) -> Result<NotingLink, AllocError> {
    Ok(NotingLink {
        source: MemorySource::new(Vec::from_slice(alloc, bytes)?, piece, Vec::new(alloc)),
        sink: MemorySink::new(alloc, Vec::new(alloc)),
        put_by_then: Vec::new(alloc),
    })
}

/// Serves a connection over a cabinet, and gives its end.
fn served<K: Keeper, L: Link>(
    alloc: Global,
    cabinet: K,
    link: &mut L,
) -> Result<SessionEnd, AllocError>
    requires valid { IsValid (K.state cabinet).catalogue }
    requires rest { IsAtRest (K.state cabinet) }
{
    let tables = Tables::new(alloc)?;
    let mut counter = Counter {
        cabinet,
        tables,
        capabilities: Words::of(Vec::new(alloc)),
    };
    let mut source = Numbered::new(0);
    Ok(replay_session(alloc, &mut counter, &mut source, link))
}

/// Whether the link of a message that stands three times is asked for the next one only when these bytes of a response have gone out.
fn are_in_order(alloc: Global, message: &str, response: usize) -> Result<bool, AllocError> {
    let stream = format!(in alloc; "{message}{message}{message}")?;
    let mut link = link_of(alloc, stream.as_bytes(), message.len())?;
    let end = served(alloc, empty(alloc)?, &mut link)?;
    let expected = [
        0,
        response,
        response.saturating_mul(2),
        response.saturating_mul(3),
    ];
    Ok(end == SessionEnd::Closed && link.put_by_then.as_slice() == expected.as_slice())
}

#[test]
fn each_response_goes_out_before_the_next_take(rt: HostRuntime) -> Result<(), Fail> {
    let response = "HTTP/1.1 404 Not Found\r\nContent-Length: 0\r\n\r\n";
    assert!(rt; are_in_order(rt.alloc(), "GET / HTTP/1.1\r\n\r\n", response.len())?);
    Ok(())
}
