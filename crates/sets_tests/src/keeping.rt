//! Connections that are kept, closed and cut.
use crate::client::Client;
use crate::server;
use crate::server::{AMPLE, MANY, limits};
use std::net::{Net, TcpStream};
use std::test::Fail;

const ECHO: &[u8] = b"POST / HTTP/1.1\r\nContent-Length: 1\r\n\r\n";

const HEAD: &[u8] = b"HTTP/1.1 200 X\r\nContent-Length: 1\r\n\r\n";

fn asks_all(client: &mut Client) -> bool {
    for digit in b'0'..=b'9' {
        if !client.sends(ECHO) || !client.sends(&[digit]) {
            return false;
        }
    }
    true
}

fn hears_all(client: &mut Client) -> bool {
    for digit in b'0'..=b'9' {
        if !client.hears(HEAD) || !client.hears(&[digit]) {
            return false;
        }
    }
    true
}

/// Whether a client that sends ten messages at once, and then ten once more, hears the answers in their order.
fn hears_in_order<R: Net<Stream = TcpStream>>(rt: &R, port: u16) -> bool {
    let Ok(mut client) = Client::new(rt, port) else {
        return false;
    };
    let first = asks_all(&mut client) && hears_all(&mut client);
    first && asks_all(&mut client) && hears_all(&mut client)
}

#[test]
fn answers_come_in_order(rt: HostRuntime) -> Result<(), Fail> {
    let server = server::start(rt, rt.alloc(), MANY, limits(AMPLE))?;
    let good = hears_in_order(&rt, server.port);
    server.end(&rt);
    assert!(rt; good);
    Ok(())
}

/// Whether one that closes hears its last answer, and one that stays is served beside it and behind it.
fn stays_beside_one_that_closes<R: Net<Stream = TcpStream>>(rt: &R, port: u16) -> bool {
    let Ok(mut staying) = Client::new(rt, port) else {
        return false;
    };
    let Ok(mut closing) = Client::new(rt, port) else {
        return false;
    };
    staying.is_served()
        && closing.is_served()
        && closing.is_served_last()
        && staying.is_served()
        && staying.is_served_last()
}

/// Whether that is so ten times, so that each worker begins a further link.
fn stay_beside_those_that_close<R: Net<Stream = TcpStream>>(rt: &R, port: u16) -> bool {
    for _ in 0..10 {
        if !stays_beside_one_that_closes(rt, port) {
            return false;
        }
    }
    true
}

#[test]
fn a_connection_closes_beside_another(rt: HostRuntime) -> Result<(), Fail> {
    let server = server::start(rt, rt.alloc(), MANY, limits(AMPLE))?;
    let good = stay_beside_those_that_close(&rt, server.port);
    server.end(&rt);
    assert!(rt; good);
    Ok(())
}

/// Sends one byte of a message on each of two connections in turn.
fn send_mixed(one: &mut Client, two: &mut Client, digit: u8) -> bool {
    for byte in ECHO {
        if !one.sends(&[*byte]) || !two.sends(&[*byte]) {
            return false;
        }
    }
    two.sends(&[digit]) && one.sends(&[digit])
}

fn are_served_mixed<R: Net<Stream = TcpStream>>(rt: &R, port: u16) -> bool {
    let Ok(mut one) = Client::new(rt, port) else {
        return false;
    };
    let Ok(mut two) = Client::new(rt, port) else {
        return false;
    };
    for digit in b'0'..=b'9' {
        let sent = send_mixed(&mut one, &mut two, digit);
        let heard = two.hears(HEAD) && two.hears(&[digit]);
        if !sent || !heard || !one.hears(HEAD) || !one.hears(&[digit]) {
            return false;
        }
    }
    true
}

#[test]
fn messages_come_by_single_bytes(rt: HostRuntime) -> Result<(), Fail> {
    let server = server::start(rt, rt.alloc(), MANY, limits(AMPLE))?;
    let good = are_served_mixed(&rt, server.port);
    server.end(&rt);
    assert!(rt; good);
    Ok(())
}

/// Whether bytes that never are a message are refused, while another client goes on.
fn is_refused_beside<R: Net<Stream = TcpStream>>(rt: &R, port: u16) -> bool {
    let Ok(mut good) = Client::new(rt, port) else {
        return false;
    };
    let Ok(mut bad) = Client::new(rt, port) else {
        return false;
    };
    good.is_served()
        && bad.sends(b"no message\r\n\r\n")
        && bad.hears_status(b"400")
        && bad.is_closed()
        && good.is_served()
}

#[test]
fn bad_bytes_end_one_connection(rt: HostRuntime) -> Result<(), Fail> {
    let server = server::start(rt, rt.alloc(), MANY, limits(AMPLE))?;
    let good = is_refused_beside(&rt, server.port);
    server.end(&rt);
    assert!(rt; good);
    Ok(())
}
