//! A client, whose calls answer whether all went as it should.
use crate::session::{BYTE, VAST};
use std::io::{Read, Write};
use std::net::{Ipv4Addr, Net, SocketAddr, TcpStream};
use std::time::{Clock, Duration};
use std::{io, thread};

/// A client's side of a connection.
#[derive(Drop)]
pub struct Client {
    stream: TcpStream,
}

/// Waits a little, so that the server sees what was sent so far.
pub fn pause<R: Clock>(rt: &R) {
    thread::sleep(rt, Duration::from_millis(2));
}

/// The time in milliseconds, on a clock that never goes back.
pub fn time<R: Clock>(rt: &R) -> u64 {
    match rt.monotonic() {
        Ok(time) => u64::try_from(time.as_millis()).unwrap_or(0),
        Err(_) => 0,
    }
}

impl Client {
    /// Connects to a server on that port of this machine.
    pub fn new<R: Net<Stream = TcpStream>>(rt: &R, port: u16) -> io::Result<Client> {
        let stream = TcpStream::connect(rt, SocketAddr::from((Ipv4Addr::LOCALHOST, port)))?;
        stream.set_nodelay(true)?;
        stream.set_read_timeout(Some(Duration::from_secs(30)))?;
        Ok(Client { stream })
    }

    /// Sends bytes.
    pub fn sends(&mut self, bytes: &[u8]) -> bool {
        self.stream.write_all(bytes).is_ok()
    }

    /// Whether exactly these bytes come next.
    pub fn hears(&mut self, wanted: &[u8]) -> bool {
        let mut piece = [0; 4096];
        let mut rest = wanted;
        for _ in 0..u32::MAX {
            if rest.is_empty() {
                return true;
            }
            let room = rest.len().min(piece.len());
            let Ok(count) = self.stream.read(&mut piece[..room]) else {
                return false;
            };
            let (front, behind) = rest.split_at(count.min(rest.len()));
            if count == 0 || &piece[..front.len()] != front {
                return false;
            }
            rest = behind;
        }
        false
    }

    /// Whether an answer of that status without a body comes next.
    pub fn hears_status(&mut self, status: &[u8]) -> bool {
        self.hears(b"HTTP/1.1 ")
            && self.hears(status)
            && self.hears(b" X\r\nContent-Length: 0\r\n\r\n")
    }

    /// Whether nothing comes for a while.
    pub fn hears_nothing(&mut self) -> bool {
        let short = Some(Duration::from_millis(50));
        let long = Some(Duration::from_secs(30));
        let mut piece = [0; 1];
        self.stream.set_read_timeout(short).is_ok()
            && self.stream.read(&mut piece).is_err()
            && self.stream.set_read_timeout(long).is_ok()
    }

    /// Whether a vast answer comes next, of which it hears a sixteenth each tenth of a second.
    pub fn hears_vast_slowly<R: Clock>(&mut self, rt: &R) -> bool {
        if !self.hears(b"HTTP/1.1 200 X\r\nContent-Length: 16000000\r\n\r\n") {
            return false;
        }
        for _ in 0..16 {
            thread::sleep(rt, Duration::from_millis(100));
            if !self.hears_body(VAST / 16) {
                return false;
            }
        }
        true
    }

    /// Whether so many bytes of such an answer come next, of which it looks at one a read.
    fn hears_body(&mut self, bytes: usize) -> bool {
        let mut piece = [0; 4096];
        let mut left = bytes;
        for _ in 0..u32::MAX {
            let room = left.min(piece.len());
            if room == 0 {
                return true;
            }
            let Ok(count) = self.stream.read(&mut piece[..room]) else {
                return false;
            };
            if count == 0 || piece[0] != BYTE {
                return false;
            }
            left = left.saturating_sub(count);
        }
        false
    }

    /// Whether the server has closed, and sent nothing more.
    pub fn is_closed(&mut self) -> bool {
        let mut piece = [0; 1];
        matches!(self.stream.read(&mut piece), Ok(0))
    }

    /// Sends the last message of its connection, hears its answer, and that the server closes behind it.
    pub fn is_served_last(&mut self) -> bool {
        self.sends(b"GET / HTTP/1.1\r\nConnection: close\r\n\r\n")
            && self.hears_status(b"200")
            && self.is_closed()
    }

    /// Sends a message without a body, and hears its answer.
    pub fn is_served(&mut self) -> bool {
        self.sends(b"GET / HTTP/1.1\r\n\r\n") && self.hears_status(b"200")
    }
}
