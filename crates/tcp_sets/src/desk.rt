//! What the owner of a set does with a socket that is ready: it reads what came, and sends what waits.
use crate::guest::Guest;
use crate::lobby::Lobby;
use crate::set::Set;
use std::sync::Wait;
use std::sync::atomic::Ordering;
use std::time::Clock;
use tcp_lanes::{AnswerSent, Filled, LISTENING, Ready, time};

/// What a look at a socket came to.
#[derive(Drop)]
pub enum SocketLook {
    /// Nothing to serve.
    Nothing,
    /// A whole message is at hand.
    Message(Box<Guest>),
    /// Bytes are at hand behind which the connection ends.
    Final(Box<Guest>),
    /// The client has closed.
    Closed,
}

impl Lobby {
    /// Looks at a socket of a set that is ready.
    pub fn look<R: Wait + Clock>(&self, rt: &R, set: &mut Set, ready: Ready) -> SocketLook {
        if ready.token == LISTENING {
            if self.welcome(rt) {
                set.tell(LISTENING);
            }
            return SocketLook::Nothing;
        }
        let Some(mail) = self.mail_of(set) else {
            return SocketLook::Nothing;
        };
        let Some(guest) = set.claim(rt, mail, ready) else {
            return SocketLook::Nothing;
        };
        let now = time(rt);
        if guest.conn.is_parting() {
            self.go_on_parting(rt, Some(set), guest, now);
            return SocketLook::Nothing;
        }
        self.read_on(rt, set, guest, now)
    }

    /// Sends what is left of an answer, and reads on once it has gone.
    fn read_on<R: Wait>(
        &self,
        rt: &R,
        set: &mut Set,
        mut guest: Box<Guest>,
        now: u64,
    ) -> SocketLook {
        let filled = match guest.conn.flush(now) {
            AnswerSent::All => guest.conn.fill(now),
            AnswerSent::Rest => Filled::Part,
            AnswerSent::Failed => Filled::Gone,
        };
        match filled {
            Filled::Whole => SocketLook::Message(guest),
            Filled::Final => SocketLook::Final(guest),
            Filled::Part => {
                self.wait_on(rt, Some(set), guest, now);
                SocketLook::Nothing
            }
            Filled::Gone => {
                self.close(rt, guest);
                SocketLook::Closed
            }
        }
    }

    /// Lets a connection wait on, unless it has waited too long.
    fn wait_on<R: Wait>(&self, rt: &R, set: Option<&mut Set>, guest: Box<Guest>, now: u64) {
        if guest.conn.is_overdue(now) {
            self.close(rt, guest);
        } else {
            self.rest(rt, set, guest);
        }
    }

    /// Gives a connection back: into the set that its worker owns where it belongs there, and otherwise by mail.
    pub fn rest<R: Wait>(&self, rt: &R, set: Option<&mut Set>, guest: Box<Guest>) {
        match set {
            Some(set) if set.home == guest.home => set.rest(guest),
            _ => self.send_home(rt, guest),
        }
    }

    /// Closes a connection: first its socket, then it is counted out, and then its token is free for another one.
    pub fn close<R: Wait>(&self, rt: &R, guest: Box<Guest>) {
        let home = guest.home;
        let token = guest.token;
        drop(guest);
        if let Some(address) = self.addresses.get(home) {
            address.count_out();
        }
        self.vacate(rt, token);
    }

    /// Takes the token of a connection back that has ended. Where one waits for it, the owner of the door's set is woken.
    pub fn vacate<R: Wait>(&self, rt: &R, token: usize) {
        let mut door = self.door.lock(rt);
        // There is room for every token.
        let _ = door.vacant.push(token);
        let home = door.home;
        drop(door);
        if self.backlog.swap(false, Ordering::SeqCst) {
            if let Some(address) = self.addresses.get(home) {
                address.ring();
            }
        }
    }

    /// Lets a connection end whose last answer was given.
    pub fn part<R: Wait>(&self, rt: &R, set: Option<&mut Set>, mut guest: Box<Guest>, now: u64) {
        guest.conn.part(now);
        self.go_on_parting(rt, set, guest, now);
    }

    pub fn go_on_parting<R: Wait>(
        &self,
        rt: &R,
        set: Option<&mut Set>,
        mut guest: Box<Guest>,
        now: u64,
    ) {
        if guest.conn.has_parted(now) {
            self.close(rt, guest);
        } else {
            self.wait_on(rt, set, guest, now);
        }
    }
}
