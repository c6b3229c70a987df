//! A listening socket that tells on standard error when a server begins to take links from it.
use http_wire::{Failed, Listener};
use std::io::Eprint;
use std::time::{Clock, Duration};

/// The listener of a server, which tells its operator that the server is ready: when the first link is asked for, which a server does once its
/// files are read and its cache is open.
#[derive(Drop)]
pub struct WatchedListener<R: Clock + Eprint + Drop, N: Listener> {
    rt: R,
    pub listener: N,
    /// The port that it listens on.
    port: u16,
    /// When the program began, where the clock told it.
    began: Option<Duration>,
    told: bool,
}

impl<R: Clock + Eprint + Drop, N: Listener> WatchedListener<R, N> {
    /// Watches a listener on this port, for a program that began then.
    pub fn new(rt: R, listener: N, port: u16, began: Option<Duration>) -> WatchedListener<R, N> {
        WatchedListener {
            rt,
            listener,
            port,
            began,
            told: false,
        }
    }

    /// Tells that links are taken from now on. A standard error that takes nothing changes nothing.
    fn tell_ready(&self) {
        let port = self.port;
        let _ = match (self.began, self.rt.monotonic()) {
            (Some(began), Ok(now)) => {
                let milliseconds = now.saturating_sub(began).as_millis();
                eprintln!(&self.rt; "serving on port {port}, ready in {milliseconds} ms")
            }
            _ => eprintln!(&self.rt; "serving on port {port}"),
        };
    }
}

impl<R: Clock + Eprint + Drop, N: Listener> Listener for WatchedListener<R, N> {
    type L = N::L;

    ghost given = { λ s. N.given s.listener };

    ghost faults = { λ s. N.faults s.listener };

    ghost closed = { λ s. N.closed s.listener };

    fn accept(&mut self) -> Result<N::L, Failed> {
        if !self.told {
            self.told = true;
            self.tell_ready();
        }
        self.listener.accept()
    }

    fn close(&mut self) {
        self.listener.close();
    }
}
