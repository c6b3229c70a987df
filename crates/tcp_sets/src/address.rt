//! What all workers know of a set, also while another one owns it.
use crate::guest::Guest;
use mio::{Registry, Token, Waker};
use std::alloc::{AllocError, Global};
use std::io;
use std::sync::Mutex;
use std::sync::atomic::{AtomicBool, AtomicUsize, Ordering};
use tcp_lanes::ALARM;

/// The connections that come to a set from elsewhere.
#[derive(Drop)]
pub struct Mail {
    /// Those that its owner hasn't moved in yet.
    pub parcels: Vec<Box<Guest>>,
    /// Whether it is served, or will be: what is sent to another set lies there for nobody.
    pub is_live: bool,
}

/// What all know of a set.
#[derive(Drop)]
pub struct Address {
    /// By which connections are registered with its poll.
    pub registry: Registry,
    pub mail: Mutex<Mail>,
    /// The same as in the mail, for who looks which set has the fewest connections.
    live: AtomicBool,
    /// How many open connections belong to it.
    open: AtomicUsize,
    /// Ends the wait of its owner.
    alarm: Waker,
}

impl Address {
    /// The address of a set with that registry that has no connection and isn't live. There is room for so many in its mail.
    pub fn new(alloc: Global, registry: Registry, room: usize) -> io::Result<Address> {
        let mail = Mail {
            parcels: Vec::with_capacity(alloc, room).map_err(AllocError::from)?,
            is_live: false,
        };
        let alarm = Waker::new(&registry, Token(ALARM))?;
        Ok(Address {
            registry,
            mail: Mutex::new(mail),
            live: AtomicBool::new(false),
            open: AtomicUsize::new(0),
            alarm,
        })
    }

    /// Notes whether the set is live, in its mail and beside it.
    pub fn set_live(&self, mail: &mut Mail, is_live: bool) {
        mail.is_live = is_live;
        self.live.store(is_live, Ordering::SeqCst);
    }

    /// How many open connections belong to it. None where it isn't live.
    pub fn load(&self) -> Option<usize> {
        if self.live.load(Ordering::SeqCst) {
            Some(self.open.load(Ordering::SeqCst))
        } else {
            None
        }
    }

    /// Whether no open connection belongs to it.
    pub fn is_deserted(&self) -> bool {
        self.open.load(Ordering::SeqCst) == 0
    }

    /// Counts a connection that belongs to it from now on.
    pub fn count_in(&self) {
        self.open.fetch_add(1, Ordering::SeqCst);
    }

    /// Counts one that no longer does.
    pub fn count_out(&self) {
        self.open.fetch_sub(1, Ordering::SeqCst);
    }

    /// Ends the wait of its owner, if there is one, or else the next.
    pub fn ring(&self) {
        // An owner that can't be woken looks by itself within the time of a sweep.
        let _ = self.alarm.wake();
    }
}
