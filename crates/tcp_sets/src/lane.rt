//! A lane: the stream of whole messages that one worker serves, whoever sent them.
ghost use Rattle.std.specs.Prelude.{◌≤◌, length};

use crate::desk::SocketLook;
use crate::guest::Guest;
use crate::lobby::Lobby;
use crate::set::Set;
use std::alloc::AllocError;
use std::sync::{Arc, Wait};
use std::time::Clock;
use tcp_lanes::{HELD_BACK, Ready, time};

/// A lane.
#[derive(Drop)]
pub struct Lane {
    lobby: Arc<Lobby>,
    /// The set that its worker owns. None until its first message is waited for, and behind a pause until the next one is.
    set: Option<Box<Set>>,
    /// The connection whose message was taken last.
    at_hand: Option<Box<Guest>>,
    /// The beginning of an answer, which is held back until more of it comes.
    head: Vec<u8>,
    /// Whether it has asked for a set.
    begun: bool,
    /// Whether no byte comes behind those at hand.
    ended: bool,
}

impl Lane {
    /// A lane that has served nobody, once one may be given out. None where no further one is given. `AllocError` where there are too
    /// many references to the lobby.
    pub fn new<R: Wait>(rt: &R, lobby: &Arc<Lobby>) -> Result<Option<Lane>, AllocError> {
        let lobby = Arc::try_clone(lobby)?;
        let Some(head) = lobby.enter(rt) else {
            return Ok(None);
        };
        Ok(Some(Lane {
            lobby,
            set: None,
            at_hand: None,
            head,
            begun: false,
            ended: false,
        }))
    }

    /// Whether the message at hand is of a client on this machine.
    pub fn is_local(&self) -> bool {
        match &self.at_hand {
            Some(guest) => guest.is_local,
            None => false,
        }
    }

    /// Ends the lane, and with it the connection at hand. The set that it has goes on.
    pub fn end<R: Wait + Clock>(mut self, rt: &R) {
        if let Some(guest) = self.at_hand.take() {
            self.part(rt, guest);
        }
        let Lane {
            lobby,
            set,
            head,
            begun,
            ..
        } = self;
        lobby.leave(rt, head, set, begun);
    }

    fn part<R: Wait + Clock>(&mut self, rt: &R, mut guest: Box<Guest>) {
        let now = time(rt);
        if !self.send_head(&mut *guest, now) {
            self.lobby.close(rt, guest);
            return;
        }
        match &mut self.set {
            Some(set) => self.lobby.part(rt, Some(&mut **set), guest, now),
            None => self.lobby.part(rt, None, guest, now),
        }
    }
}

// Taking.
impl Lane {
    /// Gives the next bytes of the message at hand, or of the next one, for which it waits; none behind the last.
    pub fn take<R: Wait + Clock>(&mut self, rt: &R, into: &mut [u8]) -> usize
        ensures { result ≤ length into.new }
    {
        let count = self.give(into);
        if count > 0 || self.ended {
            return count;
        }
        if self.lobby.is_stopping() {
            self.ended = true;
            return 0;
        }
        self.settle(rt);
        if !self.ended {
            self.await_message(rt);
        }
        self.give(into)
    }

    fn give(&mut self, into: &mut [u8]) -> usize
        ensures { result ≤ length into.new }
    {
        match &mut self.at_hand {
            Some(guest) => guest.conn.give(into),
            None => 0,
        }
    }

    /// Lets the message at hand go, and gives its connection back. The lane ends where the connection failed.
    fn settle<R: Wait + Clock>(&mut self, rt: &R) {
        let Some(mut guest) = self.at_hand.take() else {
            return;
        };
        let now = time(rt);
        if !self.send_head(&mut *guest, now) {
            self.lobby.close(rt, guest);
            self.ended = true;
            return;
        }
        guest.conn.let_go(now);
        match &mut self.set {
            Some(set) => self.lobby.rest(rt, Some(&mut **set), guest),
            None => self.lobby.rest(rt, None, guest),
        }
    }

    /// Waits for a set where it has none, and then for a connection that is ready.
    fn await_message<R: Wait + Clock>(&mut self, rt: &R) {
        let set = match self.set.take() {
            Some(set) => Some(set),
            None => {
                let is_first = !self.begun;
                self.begun = true;
                self.lobby.obtain(rt, is_first)
            }
        };
        let Some(mut set) = set else {
            self.ended = true;
            return;
        };
        self.serve_set(rt, &mut *set);
        self.set = Some(set);
    }

    /// Waits for a connection of a set that is ready.
    fn serve_set<R: Wait + Clock>(&mut self, rt: &R, set: &mut Set) {
        for _ in rt.forever() {
            let Some(ready) = self.next_ready(rt, set) else {
                self.ended = true;
                return;
            };
            match self.lobby.look(rt, set, ready) {
                SocketLook::Nothing => {}
                SocketLook::Message(guest) => {
                    self.at_hand = Some(guest);
                    return;
                }
                SocketLook::Final(guest) => {
                    self.at_hand = Some(guest);
                    self.ended = true;
                    return;
                }
                SocketLook::Closed => {
                    self.ended = true;
                    return;
                }
            }
        }
    }

    /// Waits for a socket of a set that is ready. None where the server was stopped.
    fn next_ready<R: Wait + Clock>(&self, rt: &R, set: &mut Set) -> Option<Ready> {
        for _ in rt.forever() {
            if self.lobby.is_stopping() {
                return None;
            }
            if let Some(ready) = set.first() {
                return Some(ready);
            }
            set.ask(self.lobby.patience(set));
            self.lobby.sweep(rt, set);
        }
        None
    }
}

// Answering.
impl Lane {
    /// Sends what was held back. False where the connection failed, or memory ran out.
    fn send_head(&mut self, guest: &mut Guest, now: u64) -> bool {
        if self.head.is_empty() {
            return true;
        }
        let sent = guest.conn.send(self.head.as_slice(), &[], now);
        self.head.clear();
        sent
    }

    /// Sends bytes of an answer to the connection at hand, or holds them back where they are its first and few. False where
    /// there is none, it failed, or memory ran out.
    pub fn put<R: Clock>(&mut self, rt: &R, bytes: &[u8]) -> bool {
        let Some(guest) = &mut self.at_hand else {
            return false;
        };
        if self.head.is_empty() && bytes.len() <= HELD_BACK {
            return self.head.extend_from_slice(bytes).is_ok();
        }
        let sent = guest.conn.send(self.head.as_slice(), bytes, time(rt));
        self.head.clear();
        sent
    }
}

// Waiting.
impl Lane {
    /// Counts one more that waits, and gives the set up meanwhile. False where as many wait as may.
    pub fn pause<R: Wait>(&mut self, rt: &R) -> bool {
        if !self.lobby.crowd.enter() {
            return false;
        }
        if let Some(set) = self.set.take() {
            self.lobby.give_up(rt, set, false);
        }
        true
    }

    /// Counts it back.
    pub fn resume(&self) {
        self.lobby.crowd.leave();
    }
}
