//! A renderer within a test: it takes one connection and answers as it is told.
use std::alloc::Global;
use std::io;
use std::io::{Read, Write};
use std::net::{Ipv4Addr, Net, SocketAddr, TcpListener, TcpStream};
use std::time::Duration;

/// How many seconds it waits for a byte.
const PATIENCE: u64 = 30;

/// What it does behind its bytes.
#[derive(Clone, Copy, PartialEq, Eq)]
pub enum Behind {
    /// It closes the connection.
    Closes,
    /// It sends nothing more, until the other side closes.
    Holds,
}

/// A socket of the loopback at a port that the system picks.
pub fn listen<R: Net<Listener = TcpListener, Stream = TcpStream>>(
    rt: &R,
) -> io::Result<TcpListener> {
    TcpListener::bind(rt, SocketAddr::from((Ipv4Addr::LOCALHOST, 0)))
}

/// Reads a request to the empty line behind its head.
fn request_of(alloc: Global, stream: &mut TcpStream) -> io::Result<Vec<u8>> {
    let mut request = Vec::new(alloc);
    for _ in 0..4096 {
        let mut byte = [0];
        if stream.read(&mut byte)? == 0 || request.as_slice().ends_with(b"\r\n\r\n") {
            return Ok(request);
        }
        request.push(byte[0])?;
        if request.as_slice().ends_with(b"\r\n\r\n") {
            return Ok(request);
        }
    }
    Ok(request)
}

/// Takes one connection, answers it, and gives the request.
pub fn serve(
    alloc: Global,
    listener: &TcpListener,
    answer: &[u8],
    behind: Behind,
) -> io::Result<Vec<u8>> {
    let (mut stream, _) = listener.accept()?;
    stream.set_read_timeout(Some(Duration::from_secs(PATIENCE)))?;
    let request = request_of(alloc, &mut stream)?;
    let _ = stream.write_all(answer);
    if behind == Behind::Holds {
        let mut byte = [0];
        let _ = stream.read(&mut byte);
    }
    Ok(request)
}
