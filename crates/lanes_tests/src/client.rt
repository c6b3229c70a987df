//! A client, whose calls answer whether all went as it should.
use crate::session::{BYTE, FIRST, LONG, PAGE, VAST};
use std::io::{Read, Write};
use std::net::{Ipv4Addr, Net, Shutdown, SocketAddr, TcpStream};
use std::str::from_utf8;
use std::time::{Clock, Duration};
use std::{io, thread};

/// A client's side of a connection.
#[derive(Drop)]
pub struct Client {
    stream: TcpStream,
}

/// Waits a little, so that the server sees what was sent so far.
pub fn pause<R: Clock>(rt: &R) {
    thread::sleep(rt, Duration::from_millis(2));
}

/// The time in milliseconds, on a clock that never goes back.
pub fn time<R: Clock>(rt: &R) -> u64 {
    match rt.monotonic() {
        Ok(time) => u64::try_from(time.as_millis()).unwrap_or(0),
        Err(_) => 0,
    }
}

impl Client {
    /// Connects to a server on that port of this machine.
    pub fn new<R: Net<Stream = TcpStream>>(rt: &R, port: u16) -> io::Result<Client> {
        let stream = TcpStream::connect(rt, SocketAddr::from((Ipv4Addr::LOCALHOST, port)))?;
        stream.set_nodelay(true)?;
        stream.set_read_timeout(Some(Duration::from_secs(30)))?;
        Ok(Client { stream })
    }

    /// Sends bytes.
    pub fn sends(&mut self, bytes: &[u8]) -> bool {
        self.stream.write_all(bytes).is_ok()
    }

    /// Sends the same bytes so many times, each time by themselves.
    pub fn sends_often(&mut self, bytes: &[u8], times: usize) -> bool {
        for _ in 0..times {
            if !self.sends(bytes) {
                return false;
            }
        }
        true
    }

    /// Closes the side on which it sends.
    pub fn hangs_up(&mut self) -> bool {
        self.stream.shutdown(Shutdown::Write).is_ok()
    }

    /// Whether exactly these bytes come next.
    pub fn hears(&mut self, wanted: &[u8]) -> bool {
        let mut piece = [0; 4096];
        let mut rest = wanted;
        for _ in 0..u32::MAX {
            if rest.is_empty() {
                return true;
            }
            let room = rest.len().min(piece.len());
            let Ok(count) = self.stream.read(&mut piece[..room]) else {
                return false;
            };
            let (front, behind) = rest.split_at(count.min(rest.len()));
            if count == 0 || &piece[..front.len()] != front {
                return false;
            }
            rest = behind;
        }
        false
    }

    /// Whether an answer of that status without a body comes next.
    pub fn hears_status(&mut self, status: &[u8]) -> bool {
        self.hears(b"HTTP/1.1 ")
            && self.hears(status)
            && self.hears(b" X\r\nContent-Length: 0\r\n\r\n")
    }

    /// The number that the answer has which comes next, counted from 0. None where no such answer comes.
    pub fn hears_turn(&mut self) -> Option<u64> {
        if !self.hears(b"HTTP/1.1 200 X\r\nContent-Length: 5\r\n\r\n") {
            return None;
        }
        let mut digits = [0; 5];
        self.stream.read_exact(&mut digits).ok()?;
        let turn = from_utf8(&digits).ok()?.parse::<u64>().ok()?;
        turn.checked_sub(FIRST)
    }

    /// Whether nothing comes for a while.
    pub fn hears_nothing(&mut self) -> bool {
        let short = Some(Duration::from_millis(50));
        let long = Some(Duration::from_secs(30));
        let mut piece = [0; 1];
        self.stream.set_read_timeout(short).is_ok()
            && self.stream.read(&mut piece).is_err()
            && self.stream.set_read_timeout(long).is_ok()
    }

    /// Whether a whole long answer comes next.
    pub fn hears_long(&mut self) -> bool {
        self.hears_front(LONG / 1000)
    }

    /// Whether a long answer comes next, of which it hears so many times a thousand bytes.
    pub fn hears_front(&mut self, times: usize) -> bool {
        self.hears(b"HTTP/1.1 200 X\r\nContent-Length: 1000000\r\n\r\n") && self.hears_body(times)
    }

    /// Whether a page comes next, and these bytes of its message behind it.
    pub fn hears_page(&mut self, message: &[u8]) -> bool {
        self.hears(b"HTTP/1.1 200 X\r\nContent-Length: 4005\r\n\r\n")
            && self.hears_body(PAGE / 1000)
            && self.hears(message)
    }

    /// Whether a vast answer comes next, of which it hears a sixteenth each tenth of a second.
    pub fn hears_vast_slowly<R: Clock>(&mut self, rt: &R) -> bool {
        if !self.hears(b"HTTP/1.1 200 X\r\nContent-Length: 16000000\r\n\r\n") {
            return false;
        }
        for _ in 0..16 {
            thread::sleep(rt, Duration::from_millis(100));
            if !self.hears_body(VAST / 16_000) {
                return false;
            }
        }
        true
    }

    /// Whether so many times a thousand bytes of such an answer come next.
    fn hears_body(&mut self, times: usize) -> bool {
        for _ in 0..times {
            if !self.hears(&[BYTE; 1000]) {
                return false;
            }
        }
        true
    }

    /// Whether the server has closed, and sent nothing more.
    pub fn is_closed(&mut self) -> bool {
        let mut piece = [0; 1];
        matches!(self.stream.read(&mut piece), Ok(0))
    }

    /// Whether the server lets the connection go within ten seconds, so that it takes no bytes any more.
    pub fn is_let_go<R: Clock>(&mut self, rt: &R) -> bool {
        for _ in 0..1000 {
            if !self.sends(b"a") {
                return true;
            }
            thread::sleep(rt, Duration::from_millis(10));
        }
        false
    }

    /// Sends the last message of its connection, hears its answer, and that the server closes behind it.
    pub fn is_served_last(&mut self) -> bool {
        self.sends(b"GET / HTTP/1.1\r\nConnection: close\r\n\r\n")
            && self.hears_status(b"200")
            && self.is_closed()
    }

    /// Sends a message without a body, and hears its answer.
    pub fn is_served(&mut self) -> bool {
        self.sends(b"GET / HTTP/1.1\r\n\r\n") && self.hears_status(b"200")
    }
}
