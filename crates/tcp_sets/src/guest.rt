//! An open connection with its place in the house: the set that it belongs to, and its token.
use mio::net::TcpStream;
use mio::unix::SourceFd;
use mio::{Interest, Registry, Token};
use std::alloc::{AllocError, Global};
use std::io;
use std::os::fd::{AsRawFd, RawFd};
use tcp_lanes::{Conn, Limits};

/// An open connection.
#[derive(Drop)]
pub struct Guest {
    /// By which the system tells of it, in whatever set.
    pub token: usize,
    /// The set that it belongs to.
    pub home: usize,
    /// Whether its client is on this machine.
    pub is_local: bool,
    pub conn: Conn,
    /// The descriptor of the connection, by which registries know it.
    fd: RawFd,
}

impl Guest {
    /// A connection that has read nothing, and belongs to no set yet. `AllocError` where memory runs out.
    pub fn new(
        alloc: Global,
        limits: Limits,
        stream: TcpStream,
        token: usize,
        is_local: bool,
        now: u64,
    ) -> Result<Box<Guest>, AllocError> {
        let fd = stream.as_raw_fd();
        let guest = Guest {
            token,
            home: 0,
            is_local,
            conn: Conn::new(alloc, limits, stream, now)?,
            fd,
        };
        Box::new(alloc, guest).map_err(AllocError::from)
    }

    /// Lets the system tell a set of it.
    pub fn register(&self, registry: &Registry) -> io::Result<()> {
        registry.register(&mut SourceFd(&self.fd), Token(self.token), both())
    }

    /// Lets the system tell its state anew: what it told while a worker had the connection is lost.
    pub fn reregister(&self, registry: &Registry) -> io::Result<()> {
        registry.reregister(&mut SourceFd(&self.fd), Token(self.token), both())
    }

    /// Lets the system tell a set of it no longer.
    pub fn deregister(&self, registry: &Registry) -> io::Result<()> {
        registry.deregister(&mut SourceFd(&self.fd))
    }
}

fn both() -> Interest {
    Interest::READABLE | Interest::WRITABLE
}
