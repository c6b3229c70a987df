//! New connections.
use crate::guest::Guest;
use crate::lobby::{Door, Lobby};
use mio::net::TcpStream;
use std::alloc::AllocError;
use std::io;
use std::io::ErrorKind;
use std::net::SocketAddr;
use std::sync::Wait;
use std::sync::atomic::Ordering;
use std::time::Clock;
use tcp_lanes::{WELCOMES, is_shortage, time};

/// A connection that was accepted, with its token.
#[derive(Drop)]
struct Newcomer {
    token: usize,
    stream: TcpStream,
    from: SocketAddr,
}

/// What a try to accept one came to.
#[derive(Drop)]
enum Arrival {
    Came(Newcomer),
    /// One gave up before it was accepted, and another one may wait.
    GaveUp,
    /// None waits, none may connect, or none can be taken for now.
    Nobody,
}

impl Lobby {
    /// Accepts connections that wait, as far as there is room. Whether more may wait that can be taken at once.
    pub fn welcome<R: Wait + Clock>(&self, rt: &R) -> bool {
        for _ in 0..WELCOMES {
            match self.arrival(rt) {
                Arrival::Came(newcomer) => self.admit(rt, newcomer),
                Arrival::GaveUp => {}
                Arrival::Nobody => return false,
            }
        }
        true
    }

    fn arrival<R: Wait>(&self, rt: &R) -> Arrival {
        let mut door = self.door.lock(rt);
        let Some(token) = door.vacant.pop() else {
            // It is looked again when one ends.
            self.backlog.store(true, Ordering::SeqCst);
            return Arrival::Nobody;
        };
        match next_stream(&*door) {
            Ok((stream, from)) => Arrival::Came(Newcomer {
                token,
                stream,
                from,
            }),
            Err(error) => {
                let _ = door.vacant.push(token);
                self.refused(&error)
            }
        }
    }

    /// What is to be made of an error of an accept. Where the system is short of what a connection takes, that may be had later. An error
    /// of any other kind is that of one connection.
    fn refused(&self, error: &io::Error) -> Arrival {
        if error.kind() == ErrorKind::WouldBlock {
            return Arrival::Nobody;
        }
        if !is_shortage(error) {
            return Arrival::GaveUp;
        }
        self.backlog.store(true, Ordering::SeqCst);
        Arrival::Nobody
    }

    /// Gives a newcomer a home, unless memory runs out for it.
    fn admit<R: Wait + Clock>(&self, rt: &R, newcomer: Newcomer) {
        let Newcomer {
            token,
            stream,
            from,
        } = newcomer;
        // Without it small answers are late, and not wrong.
        let _ = stream.set_nodelay(true);
        let is_local = from.ip().is_loopback();
        let limits = self.limits.clients;
        match Guest::new(self.alloc, limits, stream, token, is_local, time(rt)) {
            Ok(guest) => {
                self.house(rt, guest);
            }
            Err(AllocError) => self.vacate(rt, token),
        }
    }
}

/// The next connection that waits, and where it is from. An error where none does, the system gives none, or nobody may connect any
/// more.
fn next_stream(door: &Door) -> io::Result<(TcpStream, SocketAddr)> {
    match &door.socket {
        Some(socket) => socket.accept(),
        None => Err(io::Error::from(ErrorKind::WouldBlock)),
    }
}
