//! A client over a socket.
use std::alloc::Global;
use std::io;
use std::io::{Read, Write};
use std::net::{Ipv4Addr, Net, SocketAddr, TcpStream};
use std::time::Duration;

/// How many seconds a client waits for a further byte.
const PATIENCE: u64 = 30;

/// Sends a message to the server on that port of this machine, and gives all that it answers until it closes. An error where the
/// connection fails, or no byte comes for as long as a client waits.
pub fn answer_to<R: Net<Stream = TcpStream>>(
    rt: &R,
    alloc: Global,
    port: u16,
    message: &[u8],
) -> io::Result<Vec<u8>> {
    let mut stream = TcpStream::connect(rt, SocketAddr::from((Ipv4Addr::LOCALHOST, port)))?;
    stream.set_read_timeout(Some(Duration::from_secs(PATIENCE)))?;
    stream.write_all(message)?;
    let mut answer = Vec::new(alloc);
    stream.read_to_end(&mut answer)?;
    Ok(answer)
}
