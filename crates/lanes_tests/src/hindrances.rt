//! Clients that are silent, slow or deaf, beside one that is served all the same, by the one lane that there is.
use crate::client::{Client, pause};
use crate::server;
use std::net::{Net, TcpStream};
use std::test::Fail;
use std::time::Clock;

/// Whether a newcomer is served beside a client that has sent this and reads nothing. Both then close.
fn is_served_beside<R: Net<Stream = TcpStream> + Clock>(rt: &R, port: u16, sent: &[u8]) -> bool {
    let Ok(mut other) = Client::new(rt, port) else {
        return false;
    };
    let begun = other.sends(sent);
    pause(rt);
    let Ok(mut client) = Client::new(rt, port) else {
        return false;
    };
    begun && client.is_served() && client.hangs_up() && client.is_closed()
}

#[test]
fn a_silent_client_hinders_nobody(rt: HostRuntime) -> Result<(), Fail> {
    let server = server::start(rt, rt.alloc(), 1)?;
    let good = is_served_beside(&rt, server.port, b"");
    server.wait(&rt);
    assert!(rt; good);
    Ok(())
}

#[test]
fn half_a_head_hinders_nobody(rt: HostRuntime) -> Result<(), Fail> {
    let server = server::start(rt, rt.alloc(), 1)?;
    let good = is_served_beside(&rt, server.port, b"GET / HTTP/1.1\r\nHost");
    server.wait(&rt);
    assert!(rt; good);
    Ok(())
}

#[test]
fn half_a_body_hinders_nobody(rt: HostRuntime) -> Result<(), Fail> {
    let server = server::start(rt, rt.alloc(), 1)?;
    let good = is_served_beside(
        &rt,
        server.port,
        b"POST / HTTP/1.1\r\nContent-Length: 9\r\n\r\nbody",
    );
    server.wait(&rt);
    assert!(rt; good);
    Ok(())
}

/// Asks for more than sockets take.
fn asks_for_much(client: &mut Client) -> bool {
    for _ in 0..50 {
        if !client.sends(b"GET /long HTTP/1.1\r\n\r\n") {
            return false;
        }
    }
    true
}

fn hears_much(client: &mut Client) -> bool {
    for _ in 0..50 {
        if !client.hears_long() {
            return false;
        }
    }
    true
}

/// Whether a newcomer is served beside one that asked for much and reads nothing, which then hears it all.
fn is_served_beside_deaf<R: Net<Stream = TcpStream> + Clock>(rt: &R, port: u16) -> bool {
    let Ok(mut deaf) = Client::new(rt, port) else {
        return false;
    };
    let begun = asks_for_much(&mut deaf);
    pause(rt);
    let Ok(mut client) = Client::new(rt, port) else {
        return false;
    };
    begun && client.is_served() && hears_much(&mut deaf)
}

#[test]
fn a_deaf_client_hinders_nobody_and_loses_nothing(rt: HostRuntime) -> Result<(), Fail> {
    let server = server::start(rt, rt.alloc(), 2)?;
    let good = is_served_beside_deaf(&rt, server.port);
    server.wait(&rt);
    assert!(rt; good);
    Ok(())
}
