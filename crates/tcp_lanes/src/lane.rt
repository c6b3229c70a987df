//! A lane: the stream of whole messages that one worker serves, whoever sent them.
ghost use Rattle.std.specs.Prelude.{◌≤◌, length};

use crate::desk::{AtHand, SocketLook};
use crate::limits::HELD_BACK;
use crate::lobby::{Lobby, time};
use std::alloc::AllocError;
use std::sync::{Arc, Wait};
use std::time::Clock;

/// A lane.
#[derive(Drop)]
pub struct Lane {
    lobby: Arc<Lobby>,
    /// The connection whose message was taken last.
    at_hand: Option<AtHand>,
    /// The beginning of an answer, which is held back until more of it comes.
    head: Vec<u8>,
    /// Whether no byte comes behind those at hand.
    ended: bool,
}

impl Lane {
    /// A lane that has served nobody, once one may be given out. `AllocError` where there are too many references to the lobby.
    pub fn new<R: Wait>(rt: &R, lobby: &Arc<Lobby>) -> Result<Lane, AllocError> {
        let lobby = Arc::try_clone(lobby)?;
        let head = lobby.enter(rt);
        Ok(Lane {
            lobby,
            at_hand: None,
            head,
            ended: false,
        })
    }

    /// Gives the next bytes of the message at hand, or of the next one, for which it waits; none behind the last.
    pub fn take<R: Wait + Clock>(&mut self, rt: &R, into: &mut [u8]) -> usize
        ensures { result ≤ length into.new }
    {
        let count = self.give(into);
        if count > 0 || self.ended {
            return count;
        }
        self.settle(rt);
        if !self.ended {
            self.wait(rt);
        }
        self.give(into)
    }

    fn give(&mut self, into: &mut [u8]) -> usize
        ensures { result ≤ length into.new }
    {
        match &mut self.at_hand {
            Some(at_hand) => at_hand.conn.give(into),
            None => 0,
        }
    }

    /// Waits for a connection that is ready.
    fn wait<R: Wait + Clock>(&mut self, rt: &R) {
        for _ in rt.forever() {
            let ready = self.lobby.next(rt);
            match self.lobby.look(rt, ready) {
                SocketLook::Nothing => {}
                SocketLook::Message(at_hand) => {
                    self.at_hand = Some(at_hand);
                    return;
                }
                SocketLook::Final(at_hand) => {
                    self.at_hand = Some(at_hand);
                    self.ended = true;
                    return;
                }
                SocketLook::Closed => {
                    self.ended = true;
                    return;
                }
            }
        }
    }

    /// Lets the message at hand go, and gives its connection back. The lane ends where the connection failed.
    fn settle<R: Wait + Clock>(&mut self, rt: &R) {
        let Some(mut at_hand) = self.at_hand.take() else {
            return;
        };
        let now = time(rt);
        if self.send_head(&mut at_hand, now) {
            at_hand.conn.let_go(now);
            self.lobby.rest(rt, at_hand);
        } else {
            self.lobby.close(rt, at_hand);
            self.ended = true;
        }
    }

    /// Sends what was held back. False where the connection failed, or memory ran out.
    fn send_head(&mut self, at_hand: &mut AtHand, now: u64) -> bool {
        if self.head.is_empty() {
            return true;
        }
        let sent = at_hand.conn.send(self.head.as_slice(), &[], now);
        self.head.clear();
        sent
    }

    /// Sends bytes of an answer to the connection at hand, or holds them back where they are its first and few. False where
    /// there is none, it failed, or memory ran out.
    pub fn put<R: Clock>(&mut self, rt: &R, bytes: &[u8]) -> bool {
        let Some(at_hand) = &mut self.at_hand else {
            return false;
        };
        if self.head.is_empty() && bytes.len() <= HELD_BACK {
            return self.head.extend_from_slice(bytes).is_ok();
        }
        let sent = at_hand.conn.send(self.head.as_slice(), bytes, time(rt));
        self.head.clear();
        sent
    }

    /// Ends the lane, and with it the connection at hand.
    pub fn end<R: Wait + Clock>(mut self, rt: &R) {
        if let Some(mut at_hand) = self.at_hand.take() {
            let now = time(rt);
            if self.send_head(&mut at_hand, now) {
                self.lobby.part(rt, at_hand, now);
            } else {
                self.lobby.close(rt, at_hand);
            }
        }
        let Lane { lobby, head, .. } = self;
        lobby.leave(rt, head);
    }
}
