//! Clients whose bytes never become a message. Each is answered with its status and closed, while a good one beside it is served.
use crate::client::{Client, pause};
use crate::server;
use std::net::{Net, TcpStream};
use std::test::Fail;
use std::time::Clock;

/// Whether a client is refused with that status that sends a front and, after a pause, a piece so many times, and leaves its
/// connection open.
fn is_refused<R: Net<Stream = TcpStream> + Clock>(
    rt: &R,
    port: u16,
    front: &[u8],
    (piece, times): (&[u8], usize),
    status: &[u8],
) -> bool {
    let Ok(mut bad) = Client::new(rt, port) else {
        return false;
    };
    let begun = bad.sends(front);
    pause(rt);
    begun && bad.sends_often(piece, times) && bad.hears_status(status) && bad.is_closed()
}

/// Heads with bytes that none may have, and other protocols.
const STRANGE: [(&[u8], &[u8], &[u8]); 15] = [
    (b"GET /a", b"\x01", b"400"),
    (b"GE", b"\0", b"400"),
    (b"GE", b"\xff", b"400"),
    (b"GET /", b"\0", b"400"),
    (b"GET /", b"\xff HTTP/1.1\r\n", b"400"),
    (b"GET / HTTP/1.1\r\nHo", b"\0", b"400"),
    (b"GET / HTTP/1.1\r\nHo", b"\xffst: a\r\n", b"400"),
    (b"GET / HTTP/1.1\r\nHost: a", b"\0", b"400"),
    (b"GET / HTTP/1.1\r\nHost", b" : a", b"400"),
    (b"GET / HTTP/1.1\r\nHost: a\r", b"b", b"400"),
    (b"GET / HTTP/1.1\r\nHost: a\r\n", b" b", b"400"),
    (b"GET ", b" HTTP/1.1\r\n\r\n", b"400"),
    (b"GET /", b"\r\n", b"400"),
    (b"PRI * HTTP/2.0", b"\r\n\r\nSM\r\n\r\n", b"400"),
    (b"\x16", b"\x03\x01\x02\0\x01\0\x01\xfc\x03\x03", b"400"),
];

/// Heads that are whole, and announce what isn't served.
const ANNOUNCED: [(&[u8], &[u8], &[u8]); 6] = [
    (
        b"POST / HTTP/1.1\r\nContent-Length: 65537\r\n",
        b"\r\nabc",
        b"413",
    ),
    (
        b"POST / HTTP/1.1\r\nContent-Length: 1\r\nContent-Length: 2\r\n",
        b"\r\na",
        b"400",
    ),
    (
        b"POST / HTTP/1.1\r\nContent-Length: 1, 1\r\n",
        b"\r\na",
        b"400",
    ),
    (
        b"POST / HTTP/1.1\r\nContent-Length: -1\r\n",
        b"\r\n",
        b"400",
    ),
    (
        b"POST / HTTP/1.1\r\nTransfer-Encoding: chunked\r\n",
        b"\r\n1\r\na\r\n0\r\n\r\n",
        b"501",
    ),
    (
        b"POST / HTTP/1.1\r\nContent-Length: 1\r\nTransfer-Encoding: chunked\r\n",
        b"\r\n0\r\n\r\n",
        b"501",
    ),
];

/// Heads without an end: what one begins with, and what is sent so many times.
const ENDLESS: [(&[u8], &[u8], usize); 6] = [
    (b"G", b"A", 16_384),
    (b"GET /", b"a", 16_380),
    (b"GET / HTTP/1.1\r\n", b"a", 16_369),
    (b"GET / HTTP/1.1\r\nHost: ", b"\xff", 16_363),
    (b"GET / HTTP/1.1\r\n", b"a: b\r\n", 65),
    (b"\r\n", b"\n", 16_383),
];

fn are_refused<R: Net<Stream = TcpStream> + Clock>(
    rt: &R,
    port: u16,
    attacks: &[(&[u8], &[u8], &[u8])],
) -> bool {
    let Ok(mut good) = Client::new(rt, port) else {
        return false;
    };
    for (front, piece, status) in attacks {
        if !is_refused(rt, port, front, (piece, 1), status) || !good.is_served() {
            return false;
        }
    }
    true
}

#[test]
fn strange_bytes_are_refused_though_the_client_stays(rt: HostRuntime) -> Result<(), Fail> {
    let server = server::start(rt, rt.alloc(), 16)?;
    let good = are_refused(&rt, server.port, &STRANGE);
    server.wait(&rt);
    assert!(rt; good);
    Ok(())
}

#[test]
fn bodies_that_are_not_served_are_refused(rt: HostRuntime) -> Result<(), Fail> {
    let server = server::start(rt, rt.alloc(), 7)?;
    let good = are_refused(&rt, server.port, &ANNOUNCED);
    server.wait(&rt);
    assert!(rt; good);
    Ok(())
}

fn are_too_long<R: Net<Stream = TcpStream> + Clock>(rt: &R, port: u16) -> bool {
    let Ok(mut good) = Client::new(rt, port) else {
        return false;
    };
    for (front, piece, times) in ENDLESS {
        if !is_refused(rt, port, front, (piece, times), b"431") || !good.is_served() {
            return false;
        }
    }
    true
}

#[test]
fn heads_without_an_end_are_refused_byte_by_byte(rt: HostRuntime) -> Result<(), Fail> {
    let server = server::start(rt, rt.alloc(), 7)?;
    let good = are_too_long(&rt, server.port);
    server.wait(&rt);
    assert!(rt; good);
    Ok(())
}
