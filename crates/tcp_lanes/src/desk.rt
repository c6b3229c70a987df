//! What a lane does with a socket that is ready: it accepts connections, reads what came, and sends what waits.
use crate::conn::{AnswerSent, Conn, Filled};
use crate::limits::{EMFILE, ENFILE, ENOBUFS, ENOMEM, PAUSE, WELCOMES};
use crate::lobby::{Lobby, time};
use crate::shared_lanes::{LISTENING, Ready};
use mio::net::TcpStream;
use std::alloc::AllocError;
use std::io::ErrorKind;
use std::sync::Wait;
use std::time::{Clock, Duration};
use std::{io, thread};

/// A connection whose message is at hand.
#[derive(Drop)]
pub struct AtHand {
    pub token: usize,
    pub conn: Box<Conn>,
}

/// What a look at a socket came to.
#[derive(Drop)]
pub enum SocketLook {
    /// Nothing for a lane to serve.
    Nothing,
    /// A whole message is at hand.
    Message(AtHand),
    /// Bytes are at hand behind which the connection ends.
    Final(AtHand),
    /// The client has closed.
    Closed,
}

impl Lobby {
    /// Looks at a socket that is ready.
    pub fn look<R: Wait + Clock>(&self, rt: &R, ready: Ready) -> SocketLook {
        if ready.token == LISTENING {
            self.welcome(rt);
            return SocketLook::Nothing;
        }
        let Some(conn) = self.slots.claim(rt, ready) else {
            return SocketLook::Nothing;
        };
        let at_hand = AtHand {
            token: ready.token,
            conn,
        };
        let now = time(rt);
        if at_hand.conn.is_parting() {
            self.go_on_parting(rt, at_hand, now);
            return SocketLook::Nothing;
        }
        self.read_on(rt, at_hand, now)
    }

    /// Sends what is left of an answer, and reads on once it has gone.
    fn read_on<R: Wait>(&self, rt: &R, mut at_hand: AtHand, now: u64) -> SocketLook {
        let filled = match at_hand.conn.flush(now) {
            AnswerSent::All => at_hand.conn.fill(now),
            AnswerSent::Rest => Filled::Part,
            AnswerSent::Failed => Filled::Gone,
        };
        match filled {
            Filled::Whole => SocketLook::Message(at_hand),
            Filled::Final => SocketLook::Final(at_hand),
            Filled::Part => {
                self.wait_on(rt, at_hand, now);
                SocketLook::Nothing
            }
            Filled::Gone => {
                self.close(rt, at_hand);
                SocketLook::Closed
            }
        }
    }

    /// Lets a connection wait on, unless it has waited too long.
    fn wait_on<R: Wait>(&self, rt: &R, at_hand: AtHand, now: u64) {
        if at_hand.conn.is_overdue(now) {
            self.close(rt, at_hand);
        } else {
            self.rest(rt, at_hand);
        }
    }

    /// Gives a connection back until the system tells of it, or behind those in line where more of it is known to be there.
    pub fn rest<R: Wait>(&self, rt: &R, at_hand: AtHand) {
        let AtHand { token, conn } = at_hand;
        if self.slots.rest(rt, token, conn) {
            self.tell(rt, token);
        }
    }

    /// Closes a connection.
    pub fn close<R: Wait>(&self, rt: &R, at_hand: AtHand) {
        let AtHand { token, conn } = at_hand;
        drop(conn);
        self.slots.vacate(rt, token);
        self.shared_lanes.lock(rt).dismiss(token);
    }

    /// Lets a connection end whose last answer was given.
    pub fn part<R: Wait>(&self, rt: &R, mut at_hand: AtHand, now: u64) {
        at_hand.conn.part(now);
        self.go_on_parting(rt, at_hand, now);
    }

    fn go_on_parting<R: Wait>(&self, rt: &R, mut at_hand: AtHand, now: u64) {
        if at_hand.conn.has_parted(now) {
            self.close(rt, at_hand);
        } else {
            self.wait_on(rt, at_hand, now);
        }
    }
}

// New connections.
impl Lobby {
    /// Accepts connections that wait, as far as there is room.
    fn welcome<R: Wait + Clock>(&self, rt: &R) {
        for _ in 0..WELCOMES {
            let Some(token) = self.shared_lanes.lock(rt).hire() else {
                return;
            };
            match self.next_stream(rt) {
                Ok(stream) => {
                    if self.admit(rt, token, stream).is_err() {
                        self.shared_lanes.lock(rt).dismiss(token);
                    }
                }
                Err(error) => {
                    if self.refuse(rt, token, &error) {
                        return;
                    }
                }
            }
        }
        self.tell(rt, LISTENING);
    }

    /// The next connection that waits. An error where none does, the system gives none, or nobody may connect any more.
    fn next_stream<R: Wait>(&self, rt: &R) -> io::Result<TcpStream> {
        match &*self.door.lock(rt) {
            Some(socket) => Ok(socket.accept()?.0),
            None => Err(io::Error::from(ErrorKind::WouldBlock)),
        }
    }

    /// Takes a token back to which no connection came. Whether no further one is to be tried for now: none waits, or the system is
    /// short of what one takes, which may be had later. Any other error is that of one connection, as of one that its client gave up.
    fn refuse<R: Wait>(&self, rt: &R, token: usize, error: &io::Error) -> bool {
        let mut shared_lanes = self.shared_lanes.lock(rt);
        shared_lanes.dismiss(token);
        if error.kind() == ErrorKind::WouldBlock {
            return true;
        }
        let short = is_shortage(error);
        if short {
            shared_lanes.postpone();
        }
        short
    }

    fn admit<R: Wait + Clock>(&self, rt: &R, token: usize, stream: TcpStream) -> io::Result<()> {
        stream.set_nodelay(true)?;
        let conn = Conn::new(self.alloc, self.limits, stream, time(rt))?;
        let conn = Box::new(self.alloc, conn).map_err(AllocError::from)?;
        self.slots.place(rt, &self.registry, token, conn)
    }
}

/// Whether the system is short of descriptors or of memory.
pub fn is_shortage(error: &io::Error) -> bool {
    match error.raw_os_error() {
        Some(code) => code == ENOMEM || code == ENFILE || code == EMFILE || code == ENOBUFS,
        None => error.kind() == ErrorKind::OutOfMemory,
    }
}

// The end of all.
impl Lobby {
    /// Ends all, once: nobody connects any more, answers under way are sent, and every connection is closed. No lane may be out.
    pub fn wind_up<R: Wait + Clock>(&self, rt: &R) {
        let Some(socket) = self.door.lock(rt).take() else {
            return;
        };
        drop(socket);
        self.see_off(rt);
        for token in 1..=self.limits.connections {
            self.slots.vacate(rt, token);
        }
    }

    /// Sends the answers that are under way, as far as their clients take them within the time of one answer. A message that came
    /// behind them, and was not served, gets none.
    fn see_off<R: Wait + Clock>(&self, rt: &R) {
        let begun = time(rt);
        for _ in 0..self.limits.answer / PAUSE {
            let is_over = time(rt).saturating_sub(begun) >= self.limits.answer;
            if !self.is_sending(rt) || is_over {
                return;
            }
            thread::sleep(rt, Duration::from_millis(PAUSE));
        }
    }

    /// Lets every connection end, and goes on with it. Whether one has an answer that isn't sent.
    fn is_sending<R: Wait + Clock>(&self, rt: &R) -> bool {
        let mut some = false;
        for token in 1..=self.limits.connections {
            self.see_one_off(rt, token);
            some = some || self.slots.has_answer(rt, token);
        }
        some
    }

    /// Goes on with the end of the connection of a token, which begins it where it was going on.
    fn see_one_off<R: Wait + Clock>(&self, rt: &R, token: usize) {
        let ready = Ready {
            token,
            hung_up: false,
        };
        let Some(conn) = self.slots.claim(rt, ready) else {
            return;
        };
        let at_hand = AtHand { token, conn };
        let now = time(rt);
        if at_hand.conn.is_parting() {
            self.go_on_parting(rt, at_hand, now);
        } else {
            self.part(rt, at_hand, now);
        }
    }
}
