//! An open connection: the bytes that were read of its next messages, and those of its last answer that weren't sent.
//!
//! Nothing here waits. Each call reads or writes what the socket gives or takes at once.
ghost use Rattle.std.specs.Prelude.{◌≤◌, length};

use crate::intake::{Front, Intake};
use crate::limits::{IGNORED, Limits, READ_SIZE};
use mio::net::TcpStream;
use mio::{Interest, Registry, Token};
use std::alloc::{AllocError, Global};
use std::io;
use std::io::{ErrorKind, IoSlice, Read};
use std::net::Shutdown;

/// What a reading of a connection came to.
#[derive(Clone, Copy, PartialEq, Eq)]
pub enum Filled {
    /// Its next message is at hand, whole.
    Whole,
    /// All that came is at hand, and no message behind it: it isn't one and never will be, or the client closed within it.
    Final,
    /// The next message isn't whole yet.
    Part,
    /// The client closed behind a message, or the connection can't be read on.
    Gone,
}

/// What has become of the bytes of an answer.
#[derive(Clone, Copy, PartialEq, Eq)]
pub enum AnswerSent {
    /// The socket took all of them.
    All,
    /// Some wait until the socket takes them.
    Rest,
    /// The connection takes none any more.
    Failed,
}

/// What a reading comes to that found this at the front.
fn filled_by(front: Front) -> Filled {
    match front {
        Front::Whole => Filled::Whole,
        Front::Hopeless => Filled::Final,
    }
}

/// An open connection.
#[derive(Drop)]
pub struct Conn {
    alloc: Global,
    limits: Limits,
    stream: TcpStream,
    /// What was read and isn't answered.
    intake: Intake,
    /// An answer that the socket hasn't taken whole, and how much of it was sent.
    answer: Vec<u8>,
    sent: usize,
    /// When it began to wait for what it waits for.
    since: u64,
    /// Whether the socket may have bytes of which the system won't tell: the last read filled its buffer.
    more: bool,
    /// Whether the system told that the client closed its side.
    hung_up: bool,
    /// Whether that was read.
    closed: bool,
    /// Whether its last answer was given, so that it ends once that went out.
    parting: bool,
    /// Whether the client was told that this was the last.
    shut: bool,
}

impl Conn {
    /// A connection that has read nothing. `AllocError` where memory runs out.
    pub fn new(
        alloc: Global,
        limits: Limits,
        stream: TcpStream,
        now: u64,
    ) -> Result<Conn, AllocError> {
        Ok(Conn {
            alloc,
            limits,
            stream,
            intake: Intake::new(alloc)?,
            answer: Vec::new(alloc),
            sent: 0,
            since: now,
            more: false,
            hung_up: false,
            closed: false,
            parting: false,
            shut: false,
        })
    }

    /// Lets the system tell of this connection under the token.
    pub fn register(&mut self, registry: &Registry, token: usize) -> io::Result<()> {
        let both = Interest::READABLE | Interest::WRITABLE;
        registry.register(&mut self.stream, Token(token), both)
    }

    /// Notes that the system told of bytes, or of room for an answer.
    pub fn stir(&mut self, hung_up: bool) {
        self.more = true;
        if hung_up {
            self.hung_up = true;
        }
    }

    /// Whether there may be something to do of which the system won't tell.
    pub fn is_due(&self) -> bool {
        self.answer.is_empty() && (self.more || self.hung_up || self.intake.has_new())
    }

    /// Whether it has waited too long for its client.
    pub fn is_overdue(&self, now: u64) -> bool {
        now.saturating_sub(self.since) >= self.patience()
    }

    /// How long it may wait for what it waits for.
    fn patience(&self) -> u64 {
        if self.parting || !self.answer.is_empty() {
            self.limits.answer
        } else if self.intake.is_empty() {
            self.limits.rest
        } else {
            self.limits.message
        }
    }
}

// Reading.
impl Conn {
    /// Reads until the next message is at hand or the socket has nothing more.
    pub fn fill(&mut self, now: u64) -> Filled {
        for _ in 0..u32::MAX {
            if let Some(front) = self.intake.find() {
                return filled_by(front);
            }
            if !self.more {
                return self.part_of_one(now);
            }
            if !self.read_piece(now) {
                return self.last_of_all();
            }
        }
        Filled::Part
    }

    /// What is at hand where the next message isn't whole. Once its time is over it is looked at again, since bytes that can't
    /// become one are answered.
    fn part_of_one(&mut self, now: u64) -> Filled {
        if !self.is_overdue(now) {
            return Filled::Part;
        }
        match self.intake.look() {
            Some(front) => filled_by(front),
            None => Filled::Part,
        }
    }

    /// Reads once. False where nothing further can be read.
    fn read_piece(&mut self, now: u64) -> bool {
        let mut piece = [0; READ_SIZE];
        match self.stream.read(&mut piece) {
            Ok(0) => {
                self.closed = true;
                false
            }
            Ok(count) => {
                if self.intake.is_empty() {
                    self.since = now;
                }
                self.more = count == READ_SIZE || self.hung_up;
                self.intake.add(&piece[..count]).is_ok()
            }
            Err(error) => {
                self.more = error.kind() == ErrorKind::Interrupted;
                self.hung_up = false;
                self.more || error.kind() == ErrorKind::WouldBlock
            }
        }
    }

    /// What is at hand where nothing further can be read.
    fn last_of_all(&mut self) -> Filled {
        if !self.closed || self.intake.is_empty() {
            return Filled::Gone;
        }
        self.intake.take_all();
        Filled::Final
    }

    /// Gives the next bytes of the message at hand, and answers how many: none behind it.
    pub fn give(&mut self, into: &mut [u8]) -> usize
        ensures { result ≤ length into.new }
    {
        self.intake.give(into)
    }

    /// Lets the message at hand go. What was read behind it is looked at as that of a next message.
    pub fn let_go(&mut self, now: u64) {
        self.intake.let_go();
        self.since = now;
    }
}

// Answering.
impl Conn {
    /// Whether an answer waits until the socket takes it.
    pub fn has_answer(&self) -> bool {
        !self.answer.is_empty()
    }

    /// Sends two parts of an answer in one call, and keeps what the socket doesn't take. False where the connection failed,
    /// or there is no memory to keep it.
    pub fn send(&mut self, first: &[u8], second: &[u8], now: u64) -> bool {
        match self.flush(now) {
            AnswerSent::Failed => return false,
            AnswerSent::Rest => return self.keep(first, second, 0).is_ok(),
            AnswerSent::All => {}
        }
        let parts = [IoSlice::new(first), IoSlice::new(second)];
        match TcpStream::write_vectored(&self.stream, &parts) {
            Ok(count) => {
                self.since = now;
                self.keep(first, second, count).is_ok()
            }
            Err(error) if error.kind() == ErrorKind::WouldBlock => {
                self.since = now;
                self.keep(first, second, 0).is_ok()
            }
            Err(_) => false,
        }
    }

    /// Keeps both parts of an answer, but for the first bytes, which were sent.
    fn keep(&mut self, first: &[u8], second: &[u8], sent: usize) -> Result<(), AllocError> {
        if let Some(rest) = first.get(sent..) {
            self.answer.extend_from_slice(rest)?;
        }
        if let Some(rest) = second.get(sent.saturating_sub(first.len())..) {
            self.answer.extend_from_slice(rest)?;
        }
        Ok(())
    }

    /// Sends what is left of an answer, as far as the socket takes it.
    pub fn flush(&mut self, now: u64) -> AnswerSent {
        for _ in 0..u32::MAX {
            let Some(rest) = self.answer.get(self.sent..) else {
                return AnswerSent::Failed;
            };
            if rest.is_empty() {
                self.answer = Vec::new(self.alloc);
                self.sent = 0;
                return AnswerSent::All;
            }
            match TcpStream::write_vectored(&self.stream, &[IoSlice::new(rest)]) {
                Ok(0) => return AnswerSent::Failed,
                Ok(count) => {
                    self.sent = self.sent.saturating_add(count);
                    self.since = now;
                }
                Err(error) if error.kind() == ErrorKind::WouldBlock => return AnswerSent::Rest,
                Err(_) => return AnswerSent::Failed,
            }
        }
        AnswerSent::Failed
    }
}

// Parting.
impl Conn {
    /// Whether its last answer was given.
    pub fn is_parting(&self) -> bool {
        self.parting
    }

    /// Lets it end: no further message of it is served, and what was read of one is let go.
    pub fn part(&mut self, now: u64) {
        self.parting = true;
        self.intake.take_all();
        self.intake.let_go();
        self.since = now;
    }

    /// Sends what is left of its last answer, tells the client that this was the last, and reads on until the client closes too:
    /// a socket that closes with bytes unread may take the answer back. Whether that is done.
    pub fn has_parted(&mut self, now: u64) -> bool {
        match self.flush(now) {
            AnswerSent::Failed => return true,
            AnswerSent::Rest => return false,
            AnswerSent::All => {}
        }
        self.closed || !self.shuts() || self.ignore_rest()
    }

    /// Tells the client once that no byte follows: each time that it is told the system tells of the connection again. False where
    /// the connection failed.
    fn shuts(&mut self) -> bool {
        let tells = !self.shut;
        self.shut = true;
        !tells || self.stream.shutdown(Shutdown::Write).is_ok()
    }

    /// Reads what there is, for nothing. Whether the client has closed.
    fn ignore_rest(&mut self) -> bool {
        let mut piece = [0; READ_SIZE];
        for _ in 0..IGNORED {
            match self.stream.read(&mut piece) {
                Ok(0) => return true,
                Ok(_) => {}
                Err(error) => {
                    self.more = false;
                    self.hung_up = false;
                    return error.kind() != ErrorKind::WouldBlock;
                }
            }
        }
        self.more = true;
        false
    }
}
