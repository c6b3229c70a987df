//! NUL and bytes above 127 in each place of a message. Which of them make a message, and which none, is from the grammar of heads.
use crate::client::Client;
use crate::server;
use std::alloc::{AllocError, Global};
use std::net::{Net, TcpStream};
use std::test::Fail;

/// NUL, a byte that only goes on with a character, one that no text has, and a character of two bytes.
const ODD: [&[u8]; 4] = [b"\0", b"\x80", b"\xff", b"\xc3\xa9"];

/// The parts of a message, and which of the odd bytes may stand before each byte of a part: none in a method, a version, the name of a
/// header, a length or the end of a line; in a target what is text; in the value of a header all but NUL.
const PARTS: [(&[u8], [bool; 4]); 5] = [
    (b"GET ", [false, false, false, false]),
    (b"/ab ", [false, false, false, true]),
    (b"HTTP/1.1\r\nHost:", [false, false, false, false]),
    (b" cd\r", [false, true, true, true]),
    (b"\nContent-Length: 0\r\n\r\n", [false, false, false, false]),
];

/// How many clients there are: one for each odd bytes before each of the 49 bytes of the message, and a good one.
const CLIENTS: u64 = 197;

/// The message of all parts.
fn whole(alloc: Global) -> Result<Vec<u8>, AllocError> {
    let mut whole = Vec::new(alloc);
    for (part, _) in PARTS {
        whole.extend_from_slice(part)?;
    }
    Ok(whole)
}

/// The message with these bytes before its byte at that place.
fn with_odd(alloc: Global, whole: &[u8], at: usize, odd: &[u8]) -> Result<Vec<u8>, AllocError> {
    let (front, behind) = whole.split_at(at.min(whole.len()));
    let mut bytes = Vec::from_slice(alloc, front)?;
    bytes.extend_from_slice(odd)?;
    bytes.extend_from_slice(behind)?;
    Ok(bytes)
}

/// Whether a client that sends this is answered where it is a message, and else refused.
fn is_right<R: Net<Stream = TcpStream>>(rt: &R, port: u16, bytes: &[u8], is_message: bool) -> bool {
    let Ok(mut client) = Client::new(rt, port) else {
        return false;
    };
    let status = if is_message { b"200" } else { b"400" };
    client.sends(bytes) && client.hears_status(status) && (is_message || client.is_closed())
}

/// Whether that is so for each odd bytes before this place.
fn are_right_at<R: Net<Stream = TcpStream>>(
    rt: &R,
    alloc: Global,
    port: u16,
    (whole, at): (&[u8], usize),
    admitted: &[bool; 4],
) -> bool {
    for (odd, is_message) in ODD.iter().zip(admitted.iter()) {
        let Ok(bytes) = with_odd(alloc, whole, at, odd) else {
            return false;
        };
        if !is_right(rt, port, bytes.as_slice(), *is_message) {
            return false;
        }
    }
    true
}

/// Whether that is so before each byte of the message, while a good client is served beside.
fn are_right<R: Net<Stream = TcpStream>>(rt: &R, alloc: Global, port: u16, whole: &[u8]) -> bool {
    let Ok(mut good) = Client::new(rt, port) else {
        return false;
    };
    let mut at: usize = 0;
    for (part, admitted) in PARTS {
        for _ in 0..part.len() {
            if !are_right_at(rt, alloc, port, (whole, at), &admitted) || !good.is_served() {
                return false;
            }
            at = at.saturating_add(1);
        }
    }
    at == whole.len()
}

#[test]
fn odd_bytes_are_refused_where_no_message_has_them(rt: HostRuntime) -> Result<(), Fail> {
    let whole = whole(rt.alloc())?;
    let server = server::start(rt, rt.alloc(), CLIENTS)?;
    let good = are_right(&rt, rt.alloc(), server.port, whole.as_slice());
    server.wait(&rt);
    assert!(rt; good);
    Ok(())
}

/// Whether a client hears each body again that is made of one byte, of all that there are.
fn hears_all_bodies<R: Net<Stream = TcpStream>>(rt: &R, port: u16) -> bool {
    let Ok(mut client) = Client::new(rt, port) else {
        return false;
    };
    for byte in 0..=u8::MAX {
        let body = [byte; 3];
        if !client.sends(b"POST / HTTP/1.1\r\nContent-Length: 3\r\n\r\n")
            || !client.sends(&body)
            || !client.hears(b"HTTP/1.1 200 X\r\nContent-Length: 3\r\n\r\n")
            || !client.hears(&body)
        {
            return false;
        }
    }
    true
}

#[test]
fn a_body_has_any_bytes(rt: HostRuntime) -> Result<(), Fail> {
    let server = server::start(rt, rt.alloc(), 1)?;
    let good = hears_all_bodies(&rt, server.port);
    server.wait(&rt);
    assert!(rt; good);
    Ok(())
}
