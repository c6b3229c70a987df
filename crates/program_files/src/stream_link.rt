//! A connection to another program of this machine, over which two sides send each other packets.
ghost use Rattle.std.specs.Prelude.{None, refl};
ghost use Rattle.http_wire.specs.Side.{side};

use base::one_more;
use http_wire::{ByteSink, ByteSource, Failed, Link};
use std::io;
use std::io::{Read, Write};
use std::net::{Ipv4Addr, Net, TcpListener, TcpStream};
use std::time::Duration;

/// How long a side waits for the other one at a read or a write, in seconds. A wait that is longer fails.
const PATIENCE: u64 = 60;

/// A connection, or none, which has ended before its first byte and takes none. What goes over it isn't modelled.
#[derive(Drop)]
pub struct StreamLink {
    stream: Option<TcpStream>,
    read_faults: u64,
    write_faults: u64,
}

/// A connection that waits no longer than `PATIENCE`, and sends each packet at once.
fn link_of(stream: TcpStream) -> io::Result<StreamLink> {
    let patience = Some(Duration::from_secs(PATIENCE));
    stream.set_read_timeout(patience)?;
    stream.set_write_timeout(patience)?;
    stream.set_nodelay(true)?;
    Ok(StreamLink {
        stream: Some(stream),
        read_faults: 0,
        write_faults: 0,
    })
}

impl StreamLink {
    /// The first connection that another program of this machine makes to a port of it, for which it waits however long that takes.
    /// Fails where the port isn't had, or no connection comes.
    pub fn accepted<R: Net<Listener = TcpListener, Stream = TcpStream>>(
        rt: &R,
        port: u16,
    ) -> io::Result<StreamLink> {
        let listener = TcpListener::bind(rt, (Ipv4Addr::LOCALHOST, port))?;
        let (stream, _) = listener.accept()?;
        link_of(stream)
    }

    /// A connection to the program that waits for one at a port of this machine. Fails where none does.
    pub fn connect<R: Net<Listener = TcpListener, Stream = TcpStream>>(
        rt: &R,
        port: u16,
    ) -> io::Result<StreamLink> {
        link_of(TcpStream::connect(rt, (Ipv4Addr::LOCALHOST, port))?)
    }

    /// No connection.
    pub fn without_bytes() -> StreamLink {
        StreamLink {
            stream: None,
            read_faults: 0,
            write_faults: 0,
        }
    }
}

impl ByteSource for StreamLink {
    ghost left = { λ _. None };

    ghost faults = { λ link. link.read_faults };

    ghost apart = { λ link. side None link.write_faults };

    fn take(&mut self, into: &mut [u8]) -> Result<usize, Failed> {
        let answer = match &mut self.stream {
            Some(stream) => stream.read(into).map_err(|_| Failed),
            None => Ok(0),
        };
        if answer.is_err() {
            self.read_faults = one_more(self.read_faults);
        }
        answer
    }
}

impl ByteSink for StreamLink {
    ghost taken = { λ _. None };

    ghost faults = { λ link. link.write_faults };

    ghost apart = { λ link. side None link.read_faults };

    fn put(&mut self, bytes: &[u8]) -> Result<usize, Failed> {
        let written = match &mut self.stream {
            Some(stream) => stream.write(bytes).unwrap_or(0),
            None => 0,
        };
        if written > 0 {
            return Ok(written);
        }
        self.write_faults = one_more(self.write_faults);
        Err(Failed)
    }
}

impl Link for StreamLink {
    ghost take_keeps = { λ link. refl };

    ghost put_keeps = { λ link. refl };
}
