//! A set: a poll of the system with its line and its connections. One worker at a time owns it, so that nothing in it is locked.
use crate::address::Mail;
use crate::guest::Guest;
use crate::line::Line;
use mio::{Events, Poll, Registry};
use std::alloc::{AllocError, Global};
use std::net::Net;
use std::sync::{Mutex, Wait};
use std::time::Duration;
use std::{io, mem};
use tcp_lanes::{ALARM, EVENTS, LISTENING, Ready, SERVED};

/// A set.
#[derive(Drop)]
pub struct Set {
    /// The number by which its connections and its address name it.
    pub home: usize,
    poll: Poll,
    events: Events,
    line: Line,
    /// Its connections by their tokens. None where one is with a worker or lies in the mail.
    guests: Vec<Option<Box<Guest>>>,
    /// How many of those in line were served since the system was asked.
    served: u64,
    /// When it was last looked who waited too long.
    swept: u64,
}

impl Set {
    /// A set without connections, with room for as many sockets, the listening one among them. An error where the system gives no poll,
    /// or memory runs out.
    pub fn new<R: Net>(
        rt: &R,
        alloc: Global,
        home: usize,
        sockets: usize,
        now: u64,
    ) -> io::Result<Set> {
        let mut guests = Vec::with_capacity(alloc, sockets)?;
        for _ in 0..sockets {
            guests.push(None).map_err(AllocError::from)?;
        }
        Ok(Set {
            home,
            poll: Poll::new(rt)?,
            events: Events::with_capacity(alloc, EVENTS)?,
            line: Line::new(alloc, sockets)?,
            guests,
            served: 0,
            swept: now,
        })
    }

    /// A further owner of what is registered with its poll.
    pub fn registry(&self) -> io::Result<Registry> {
        self.poll.registry().try_clone()
    }

    /// How many sockets it has room for.
    pub fn sockets(&self) -> usize {
        self.guests.len()
    }
}

// Who is ready.
impl Set {
    /// Puts a socket in line.
    pub fn tell(&mut self, token: usize) {
        self.line.tell(token, false);
    }

    /// The first in line. None where it is time to ask the system first: nobody is in line, or so many were served that newcomers
    /// would be kept out.
    pub fn first(&mut self) -> Option<Ready> {
        if self.served >= SERVED {
            return None;
        }
        let ready = self.line.first()?;
        self.served = self.served.saturating_add(1);
        Some(ready)
    }

    /// Whether somebody is in line.
    pub fn has_line(&self) -> bool {
        !self.line.is_empty()
    }

    /// Asks the system who is ready, and waits for it as long as may be.
    pub fn ask(&mut self, patience: Option<Duration>) {
        self.served = 0;
        // A wait that fails tells of nobody, as one that a signal ends.
        let _ = self.poll.poll(&mut self.events, patience);
        for event in &self.events {
            let token = event.token().0;
            if token == ALARM {
                // Among what is called for by the alarm is a look at the listening socket. The rest is looked at anyway.
                self.line.tell(LISTENING, false);
            } else {
                self.line.tell(token, event.is_read_closed());
            }
        }
    }

    /// Whether it is time to look who waited too long, which is noted as done.
    pub fn is_to_sweep(&mut self, now: u64, every: u64) -> bool {
        if now.saturating_sub(self.swept) < every {
            return false;
        }
        self.swept = now;
        true
    }

    /// Puts the connections in line that have waited too long. Who takes them up looks once more before it closes them.
    pub fn sweep(&mut self, now: u64) {
        for token in 0..self.guests.len() {
            if self.is_overdue(token, now) {
                self.tell(token);
            }
        }
    }

    fn is_overdue(&self, token: usize, now: u64) -> bool {
        match self.guests.get(token) {
            Some(Some(guest)) => guest.conn.is_overdue(now),
            _ => false,
        }
    }

    /// Lets all in line go, since its connections went elsewhere.
    pub fn clear_line(&mut self) {
        self.line.clear();
        self.served = 0;
    }
}

// Its connections.
impl Set {
    /// Moves all connections in that lie in its mail.
    pub fn move_in<R: Wait>(&mut self, rt: &R, mail: &Mutex<Mail>) {
        let mut mail = mail.lock(rt);
        for _ in 0..mail.parcels.len() {
            if let Some(guest) = mail.parcels.pop() {
                self.put(guest);
            }
        }
    }

    fn put(&mut self, guest: Box<Guest>) {
        if let Some(place) = self.guests.get_mut(guest.token) {
            *place = Some(guest);
        }
    }

    /// The connection of a token, where it rests.
    pub fn take(&mut self, token: usize) -> Option<Box<Guest>> {
        mem::replace(self.guests.get_mut(token)?, None)
    }

    /// The connection of which the system told, where it rests or lies in the mail. None where it is with a worker or has ended, so
    /// that what was told is stale: who gives it back has it told anew.
    pub fn claim<R: Wait>(
        &mut self,
        rt: &R,
        mail: &Mutex<Mail>,
        ready: Ready,
    ) -> Option<Box<Guest>> {
        let mut guest = match self.take(ready.token) {
            Some(guest) => guest,
            None => {
                self.move_in(rt, mail);
                self.take(ready.token)?
            }
        };
        guest.conn.stir(ready.hung_up);
        Some(guest)
    }

    /// Lets a connection rest until the system tells of it, or behind those in line where more of it is known to be there.
    pub fn rest(&mut self, guest: Box<Guest>) {
        if guest.conn.is_due() {
            self.tell(guest.token);
        }
        self.put(guest);
    }

    /// Whether the connection of a token rests, and an answer of it isn't sent whole.
    pub fn has_answer(&self, token: usize) -> bool {
        match self.guests.get(token) {
            Some(Some(guest)) => guest.conn.has_answer(),
            _ => false,
        }
    }
}
