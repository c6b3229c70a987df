//! What the links share: the addresses of the sets, the yard where those lie that nobody owns, the listening socket, and the crowd of
//! the messages that wait.
//!
//! Of two locks that are held at once that of the door is taken before that of a mail; no other pair is.
use crate::address::{Address, Mail};
use crate::crowd::Crowd;
use crate::limits::SetLimits;
use crate::links_out::LinksOut;
use crate::set::Set;
use crate::yard::Yard;
use mio::net::TcpListener;
use mio::{Interest, Token};
use std::alloc::{AllocError, Global};
use std::io;
use std::net::Net;
use std::sync::atomic::{AtomicBool, Ordering};
use std::sync::{Condvar, Mutex, Wait};
use std::time::{Clock, Duration};
use tcp_lanes::{LISTENING, time};

/// The listening socket, and the tokens of no connection. It is locked where a connection begins or ends.
#[derive(Drop)]
pub struct Door {
    /// Absent once nobody may connect any more.
    pub socket: Option<TcpListener>,
    /// The set whose poll tells of new connections.
    pub home: usize,
    pub vacant: Vec<usize>,
}

/// What the links share.
#[derive(Drop)]
pub struct Lobby {
    pub alloc: Global,
    pub limits: SetLimits,
    pub addresses: Vec<Address>,
    pub door: Mutex<Door>,
    /// Whether connections may wait of which the system has told.
    pub backlog: AtomicBool,
    pub crowd: Crowd,
    pub yard: Mutex<Yard>,
    /// Rings for those that wait for a set.
    pub bell: Condvar,
    pub links: Mutex<LinksOut>,
    /// Rings for who waits for a further link.
    pub ended: Condvar,
    stopping: AtomicBool,
}

/// All tokens of connections.
fn tokens(alloc: Global, connections: usize) -> Result<Vec<usize>, AllocError> {
    let mut vacant = Vec::with_capacity(alloc, connections)?;
    for token in 0..=connections {
        if token != LISTENING {
            vacant.push(token)?;
        }
    }
    Ok(vacant)
}

/// Sets in a yard, and their addresses.
fn sets<R: Net + Clock>(
    rt: &R,
    alloc: Global,
    limits: SetLimits,
) -> io::Result<(Yard, Vec<Address>)> {
    let count = limits.sets.max(1);
    let connections = limits.clients.connections;
    let mut yard = Yard::new(alloc, count)?;
    let mut addresses = Vec::with_capacity(alloc, count)?;
    for home in 0..count {
        let set = Set::new(rt, alloc, home, connections.saturating_add(1), time(rt))?;
        let address = Address::new(alloc, set.registry()?, connections)?;
        addresses.push(address).map_err(AllocError::from)?;
        yard.lay_by(Box::new(alloc, set).map_err(AllocError::from)?);
    }
    Ok((yard, addresses))
}

impl Lobby {
    /// A lobby behind that socket. Everything that waiting needs is taken here. An error where the system doesn't give it, or memory
    /// runs out.
    pub fn new<R: Net + Clock>(
        rt: &R,
        alloc: Global,
        mut socket: TcpListener,
        limits: SetLimits,
    ) -> io::Result<Lobby> {
        let (yard, addresses) = sets(rt, alloc, limits)?;
        if let Some(first) = addresses.first() {
            first
                .registry
                .register(&mut socket, Token(LISTENING), Interest::READABLE)?;
        }
        let door = Door {
            socket: Some(socket),
            home: 0,
            vacant: tokens(alloc, limits.clients.connections)?,
        };
        Ok(Lobby {
            alloc,
            limits,
            addresses,
            door: Mutex::new(door),
            backlog: AtomicBool::new(false),
            crowd: Crowd::new(limits.waiting),
            yard: Mutex::new(yard),
            bell: Condvar::new(),
            links: Mutex::new(LinksOut::new(alloc, limits.links.max(1))?),
            ended: Condvar::new(),
            stopping: AtomicBool::new(false),
        })
    }

    /// Waits until a link may be given, and takes its buffer. None where no further one is given.
    pub fn enter<R: Wait>(&self, rt: &R) -> Option<Vec<u8>> {
        let mut links = self
            .ended
            .wait_while(rt, self.links.lock(rt), |links| links.has_to_wait());
        let head = links.give()?;
        drop(links);
        self.yard.lock(rt).expect();
        Some(head)
    }

    /// Whether the server was stopped, so that no message is begun any more.
    pub fn is_stopping(&self) -> bool {
        self.stopping.load(Ordering::SeqCst)
    }

    /// Notes that it was.
    pub fn set_stopping(&self) {
        self.stopping.store(true, Ordering::SeqCst);
    }

    /// The mail of a set.
    pub fn mail_of(&self, set: &Set) -> Option<&Mutex<Mail>> {
        Some(&self.addresses.get(set.home)?.mail)
    }

    /// How long the owner of a set may wait for the system: not at all while somebody is in line, and as long as it likes only while
    /// the set has no connection and none waits of which the system has told.
    pub fn patience(&self, set: &Set) -> Option<Duration> {
        if set.has_line() {
            return Some(Duration::ZERO);
        }
        let is_deserted = match self.addresses.get(set.home) {
            Some(address) => address.is_deserted(),
            None => false,
        };
        if is_deserted && !self.backlog.load(Ordering::SeqCst) {
            None
        } else {
            Some(Duration::from_millis(self.limits.clients.sweep))
        }
    }

    /// Looks who of a set waited too long, where it is time to: also those in its mail of which the system won't tell.
    pub fn sweep<R: Wait + Clock>(&self, rt: &R, set: &mut Set) {
        let now = time(rt);
        if !set.is_to_sweep(now, self.limits.clients.sweep) {
            return;
        }
        if let Some(mail) = self.mail_of(set) {
            set.move_in(rt, mail);
        }
        set.sweep(now);
        if self.backlog.swap(false, Ordering::SeqCst) {
            set.tell(LISTENING);
        }
    }
}
