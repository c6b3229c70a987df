//! The listening socket, which gives lanes, and the switch that stops them.
use crate::lane::Lane;
use crate::limits::SetLimits;
use crate::link::SetLink;
use crate::lobby::Lobby;
use base::Trace;
use http_wire::{Failed, Listener};
use mio::net::TcpListener;
use std::alloc::{AllocError, Global};
use std::io;
use std::net::{Net, SocketAddr};
use std::sync::{Arc, Wait};
use std::time::Clock;

/// A listening socket. Of the connections to it contracts know nothing. Once it is closed or dropped, and its last link has ended, or
/// once it is stopped, nobody connects any more.
pub struct SetAccept<R: Wait + Clock + Copy + Drop> {
    rt: R,
    lobby: Arc<Lobby>,
    given: Trace<SetLink<R>>,
    faults: u64,
    closed: bool,
}

impl<R: Wait + Clock + Net + Copy + Drop> SetAccept<R> {
    /// Listens at that address, within the limits; port 0 is one that the system picks. An error where the address can't be had, the
    /// system gives no poll, or memory runs out.
    pub fn bind(
        rt: R,
        alloc: Global,
        address: SocketAddr,
        limits: SetLimits,
    ) -> io::Result<SetAccept<R>> {
        let socket = TcpListener::bind(&rt, address)?;
        let lobby = Lobby::new(&rt, alloc, socket, limits)?;
        Ok(SetAccept {
            rt,
            lobby: Arc::new(alloc, lobby).map_err(AllocError::from)?,
            given: Trace::new(),
            faults: 0,
            closed: false,
        })
    }

    /// The port on which it listens. An error where the system can't tell it, or it listens no longer.
    pub fn port(&self) -> io::Result<u16> {
        match &self.lobby.door.lock(&self.rt).socket {
            Some(socket) => Ok(socket.local_addr()?.port()),
            None => Err(io::Error::from(io::ErrorKind::NotConnected)),
        }
    }
}

impl<R: Wait + Clock + Copy + Drop> SetAccept<R> {
    /// A switch that stops it. `AllocError` where there are too many.
    pub fn stop_switch(&self) -> Result<StopSwitch, AllocError> {
        Ok(StopSwitch {
            lobby: Arc::try_clone(&self.lobby)?,
        })
    }

    /// A further link, once fewer are out than may be. None where no further one is given.
    fn next_link(&self) -> Option<SetLink<R>> {
        if self.closed {
            return None;
        }
        match Lane::new(&self.rt, &self.lobby) {
            Ok(Some(lane)) => Some(SetLink::new(self.rt, lane)),
            _ => None,
        }
    }
}

impl<R: Wait + Clock + Copy + Drop> Drop for SetAccept<R> {
    fn drop(self) {
        self.lobby.end_after_last(&self.rt);
        let SetAccept {
            rt: _,
            lobby: _,
            given: _,
            faults: _,
            closed: _,
        } = self;
    }
}

impl<R: Wait + Clock + Copy + Drop> Listener for SetAccept<R> {
    type L = SetLink<R>;

    ghost given = { λ s. s.given.entries };

    ghost faults = { λ s. s.faults };

    ghost closed = { λ s. s.closed };

    fn accept(&mut self) -> Result<SetLink<R>, Failed> {
        match self.next_link() {
            Some(link) => {
                self.given = self.given.and(&link);
                Ok(link)
            }
            None => {
                self.faults = base::one_more(self.faults);
                Err(Failed)
            }
        }
    }

    // A link is given before anybody connects whom it may serve. So it is listened until the last one has ended.
    fn close(&mut self) {
        self.closed = true;
        self.lobby.end_after_last(&self.rt);
    }
}

/// Stops a server, from any thread.
#[derive(Drop)]
pub struct StopSwitch {
    lobby: Arc<Lobby>,
}

impl StopSwitch {
    /// Another switch of the same server. `AllocError` where there are too many.
    pub fn try_clone(&self) -> Result<StopSwitch, AllocError> {
        Ok(StopSwitch {
            lobby: Arc::try_clone(&self.lobby)?,
        })
    }

    /// Stops the server: its port is free, no link is given and no message begun any more. A link whose message is under way ends once
    /// that is answered, and all others at once; then the answers that their clients haven't taken are seen off, for as long as one
    /// answer may wait, and every connection is closed. A second time does nothing. It may be called while a link is served, as it then
    /// waits for nobody; where no link is out the answers are seen off before it returns.
    pub fn stop<R: Wait + Clock>(&self, rt: &R) {
        self.lobby.stop(rt);
    }
}
