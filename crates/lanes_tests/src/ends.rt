//! How connections end.
use crate::client::{Client, pause};
use crate::server;
use std::net::{Net, TcpStream};
use std::test::Fail;
use std::time::Clock;
use tcp_lanes::Limits;

/// Whether one that is no message is refused, while another client goes on.
fn is_refused_beside<R: Net<Stream = TcpStream>>(rt: &R, port: u16) -> bool {
    let Ok(mut good) = Client::new(rt, port) else {
        return false;
    };
    let Ok(mut bad) = Client::new(rt, port) else {
        return false;
    };
    good.is_served()
        && bad.sends(b"no message\r\n\r\n")
        && bad.hears(b"HTTP/1.1 400 X\r\nContent-Length: 0\r\n\r\n")
        && bad.is_closed()
        && good.is_served()
}

#[test]
fn bad_bytes_end_one_connection(rt: HostRuntime) -> Result<(), Fail> {
    let server = server::start(rt, rt.alloc(), 2)?;
    let good = is_refused_beside(&rt, server.port);
    server.wait(&rt);
    assert!(rt; good);
    Ok(())
}

/// Sends a whole message and half of one, and closes.
fn is_served_to_the_last<R: Net<Stream = TcpStream>>(rt: &R, port: u16) -> bool {
    let Ok(mut client) = Client::new(rt, port) else {
        return false;
    };
    client.sends(b"GET /long HTTP/1.1\r\n\r\nGET /")
        && client.hangs_up()
        && client.hears_long()
        && client.is_closed()
}

#[test]
fn one_that_closes_is_answered_to_the_last(rt: HostRuntime) -> Result<(), Fail> {
    let server = server::start(rt, rt.alloc(), 1)?;
    let good = is_served_to_the_last(&rt, server.port);
    server.wait(&rt);
    assert!(rt; good);
    Ok(())
}

/// Asks for a last answer, which the server sends though its lanes have ended.
fn hears_the_last<R: Net<Stream = TcpStream>>(rt: &R, port: u16) -> bool {
    let Ok(mut client) = Client::new(rt, port) else {
        return false;
    };
    client.sends(b"GET /long HTTP/1.1\r\nConnection: close\r\n\r\n")
        && client.hears_long()
        && client.is_closed()
}

#[test]
fn a_last_answer_is_sent_whole(rt: HostRuntime) -> Result<(), Fail> {
    let server = server::start(rt, rt.alloc(), 1)?;
    let good = hears_the_last(&rt, server.port);
    server.wait(&rt);
    assert!(rt; good);
    Ok(())
}

/// Sends the beginning of a target in many small pieces, whose looks cost more than a server spends on one head, and a byte
/// behind it that no target has.
fn sends_late_fault<R: Clock>(rt: &R, client: &mut Client) -> bool {
    if !client.sends(b"GET /") {
        return false;
    }
    for _ in 0..40 {
        pause(rt);
        if !client.sends(&[b'a'; 400]) {
            return false;
        }
    }
    pause(rt);
    client.sends(b"\x01")
}

/// Whether half a message is given up and hopeless bytes are refused once their time is over, and a newcomer is served then.
fn are_given_up<R: Net<Stream = TcpStream> + Clock>(rt: &R, port: u16) -> bool {
    let Ok(mut slow) = Client::new(rt, port) else {
        return false;
    };
    let Ok(mut hopeless) = Client::new(rt, port) else {
        return false;
    };
    let given_up = slow.sends(b"GET / HTTP/1.1\r\n")
        && sends_late_fault(rt, &mut hopeless)
        && slow.is_closed()
        && hopeless.hears_status(b"400")
        && hopeless.is_closed();
    let Ok(mut client) = Client::new(rt, port) else {
        return false;
    };
    given_up && client.is_served()
}

#[test]
fn a_message_is_given_up_after_its_time(rt: HostRuntime) -> Result<(), Fail> {
    let limits = Limits {
        rest: 60_000,
        message: 2000,
        answer: 60_000,
        sweep: 50,
        connections: 8,
    };
    let server = server::start_within(rt, rt.alloc(), 2, limits)?;
    let good = are_given_up(&rt, server.port);
    server.wait(&rt);
    assert!(rt; good);
    Ok(())
}

/// Asks for two long answers, hears so many times a thousand bytes of the first, and is gone.
fn vanishes<R: Net<Stream = TcpStream>>(rt: &R, port: u16, heard: usize) -> bool {
    let Ok(mut client) = Client::new(rt, port) else {
        return false;
    };
    client.sends(b"GET /long HTTP/1.1\r\n\r\nGET /long HTTP/1.1\r\n\r\n")
        && client.hears_front(heard)
}

fn all_vanish<R: Net<Stream = TcpStream>>(rt: &R, port: u16) -> bool {
    for heard in [0, 1, 10, 100, 999] {
        if !vanishes(rt, port, heard) {
            return false;
        }
    }
    let Ok(mut client) = Client::new(rt, port) else {
        return false;
    };
    client.is_served()
}

#[test]
fn clients_that_vanish_hinder_nobody(rt: HostRuntime) -> Result<(), Fail> {
    let server = server::start(rt, rt.alloc(), 6)?;
    let good = all_vanish(&rt, server.port);
    server.wait(&rt);
    assert!(rt; good);
    Ok(())
}
