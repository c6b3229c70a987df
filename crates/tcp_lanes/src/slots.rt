//! Where the connections rest, each in a slot with a lock of its own.
use crate::conn::Conn;
use crate::shared_lanes::Ready;
use mio::Registry;
use std::alloc::{AllocError, Global};
use std::sync::{Mutex, Wait};
use std::{io, mem};

/// Where the connection of a token is.
#[derive(Drop)]
enum Slot {
    Vacant,
    Resting(Box<Conn>),
    /// With a lane, and what the system told of it meanwhile.
    Out(Option<Ready>),
}

/// The slots of all tokens. That of the listening socket stays vacant.
#[derive(Drop)]
pub struct Slots {
    places: Vec<Mutex<Slot>>,
}

impl Slots {
    /// Slots for so many connections. `AllocError` where memory runs out.
    pub fn new(alloc: Global, connections: usize) -> Result<Slots, AllocError> {
        let mut places = Vec::with_capacity(alloc, connections.saturating_add(1))?;
        for _ in 0..=connections {
            places
                .push(Mutex::new(Slot::Vacant))
                .map_err(AllocError::from)?;
        }
        Ok(Slots { places })
    }

    /// Puts a new connection into its slot, and lets the system tell of it.
    pub fn place<R: Wait>(
        &self,
        rt: &R,
        registry: &Registry,
        token: usize,
        mut conn: Box<Conn>,
    ) -> io::Result<()> {
        let Some(place) = self.places.get(token) else {
            return Ok(());
        };
        // Whoever hears of it waits here until it lies in its slot.
        let mut slot = place.lock(rt);
        conn.register(registry, token)?;
        *slot = Slot::Resting(conn);
        Ok(())
    }

    /// The connection of which the system told, where it rests. Where it is with a lane, that lane hears of it.
    pub fn claim<R: Wait>(&self, rt: &R, ready: Ready) -> Option<Box<Conn>> {
        let mut slot = self.places.get(ready.token)?.lock(rt);
        match mem::replace(&mut *slot, Slot::Out(None)) {
            Slot::Resting(mut conn) => {
                conn.stir(ready.hung_up);
                Some(conn)
            }
            Slot::Out(told) => {
                *slot = Slot::Out(Some(ready.after(told)));
                None
            }
            Slot::Vacant => {
                *slot = Slot::Vacant;
                None
            }
        }
    }

    /// Gives a connection back. Whether it has to be looked at again without being told of.
    pub fn rest<R: Wait>(&self, rt: &R, token: usize, mut conn: Box<Conn>) -> bool {
        let Some(place) = self.places.get(token) else {
            return false;
        };
        let mut slot = place.lock(rt);
        let told = match &*slot {
            Slot::Out(Some(ready)) => {
                conn.stir(ready.hung_up);
                true
            }
            _ => false,
        };
        let again = told || conn.is_due();
        *slot = Slot::Resting(conn);
        again
    }

    /// Notes that the connection of a token has ended.
    pub fn vacate<R: Wait>(&self, rt: &R, token: usize) {
        if let Some(place) = self.places.get(token) {
            *place.lock(rt) = Slot::Vacant;
        }
    }

    /// Whether the connection of a token rests, and has waited too long.
    pub fn is_overdue<R: Wait>(&self, rt: &R, token: usize, now: u64) -> bool {
        let Some(place) = self.places.get(token) else {
            return false;
        };
        match &*place.lock(rt) {
            Slot::Resting(conn) => conn.is_overdue(now),
            _ => false,
        }
    }

    /// Whether the connection of a token rests, and an answer of it isn't sent whole.
    pub fn has_answer<R: Wait>(&self, rt: &R, token: usize) -> bool {
        let Some(place) = self.places.get(token) else {
            return false;
        };
        match &*place.lock(rt) {
            Slot::Resting(conn) => conn.has_answer(),
            _ => false,
        }
    }
}
