//! The listening socket, which gives lanes.
use crate::lane::Lane;
use crate::limits::{EVENTS, Limits};
use crate::link::TcpLink;
use crate::lobby::{Lobby, time};
use crate::shared_lanes::Poller;
use base::Trace;
use http_wire::{Failed, Listener};
use mio::net::TcpListener;
use mio::{Events, Poll};
use std::alloc::{AllocError, Global};
use std::io;
use std::net::{Ipv4Addr, Net, SocketAddr};
use std::sync::{Arc, Wait};
use std::time::Clock;

/// A listening socket. Of the connections to it contracts know nothing. Once it is closed or dropped, and its
/// last lane has ended, nobody connects any more.
pub struct TcpAccept<R: Wait + Clock + Copy + Drop> {
    rt: R,
    lobby: Arc<Lobby>,
    given: Trace<TcpLink<R>>,
    faults: u64,
    closed: bool,
}

impl<R: Wait + Clock + Net + Copy + Drop> TcpAccept<R> {
    /// Listens on that port of all addresses, within the standard limits; port 0 is one that the system picks. An error where the
    /// port can't be had, or memory runs out.
    pub fn bind(rt: R, alloc: Global, port: u16) -> io::Result<TcpAccept<R>> {
        TcpAccept::bind_within(rt, alloc, port, Limits::standard())
    }

    /// The same, with limits of one's own.
    pub fn bind_within(
        rt: R,
        alloc: Global,
        port: u16,
        limits: Limits,
    ) -> io::Result<TcpAccept<R>> {
        let socket = TcpListener::bind(&rt, SocketAddr::from((Ipv4Addr::UNSPECIFIED, port)))?;
        let poller = Poller {
            poll: Poll::new(&rt)?,
            events: Events::with_capacity(alloc, EVENTS)?,
        };
        let lobby = Lobby::new(alloc, socket, poller, limits, time(&rt))?;
        Ok(TcpAccept {
            rt,
            lobby: Arc::new(alloc, lobby).map_err(AllocError::from)?,
            given: Trace::new(),
            faults: 0,
            closed: false,
        })
    }

    /// The port on which it listens. An error where the system can't tell it, or it listens no longer.
    pub fn port(&self) -> io::Result<u16> {
        match &*self.lobby.door.lock(&self.rt) {
            Some(socket) => Ok(socket.local_addr()?.port()),
            None => Err(io::Error::from(io::ErrorKind::NotConnected)),
        }
    }
}

impl<R: Wait + Clock + Copy + Drop> TcpAccept<R> {
    /// A further link, once fewer lanes are out than may be. None where no further one is wanted.
    fn next_link(&self) -> Option<TcpLink<R>> {
        if self.closed {
            return None;
        }
        match Lane::new(&self.rt, &self.lobby) {
            Ok(lane) => Some(TcpLink::new(self.rt, lane)),
            Err(_) => None,
        }
    }
}

impl<R: Wait + Clock + Copy + Drop> Drop for TcpAccept<R> {
    fn drop(self) {
        self.lobby.end_after_last(&self.rt);
        let TcpAccept {
            rt: _,
            lobby: _,
            given: _,
            faults: _,
            closed: _,
        } = self;
    }
}

impl<R: Wait + Clock + Copy + Drop> Listener for TcpAccept<R> {
    type L = TcpLink<R>;

    ghost given = { λ s. s.given.entries };

    ghost faults = { λ s. s.faults };

    ghost closed = { λ s. s.closed };

    fn accept(&mut self) -> Result<TcpLink<R>, Failed> {
        match self.next_link() {
            Some(link) => {
                self.given = self.given.and(&link);
                Ok(link)
            }
            None => {
                self.faults = base::one_more(self.faults);
                Err(Failed)
            }
        }
    }

    // A lane is given before anybody connects whom it may serve. So it is listened until the last lane has ended.
    fn close(&mut self) {
        self.closed = true;
        self.lobby.end_after_last(&self.rt);
    }
}
