//! Messages that are cut, mixed and piled up.
use crate::client::{Client, pause};
use crate::server;
use std::net::{Net, TcpStream};
use std::test::Fail;
use std::time::Clock;

const MESSAGE: &[u8] = b"POST /a HTTP/1.1\r\nContent-Length: 5\r\n\r\nfirst";

const ANSWER: &[u8] = b"HTTP/1.1 200 X\r\nContent-Length: 5\r\n\r\nfirst";

const OTHER: &[u8] = b"POST /b HTTP/1.1\r\nContent-Length: 6\r\n\r\nsecond";

const OTHER_ANSWER: &[u8] = b"HTTP/1.1 200 X\r\nContent-Length: 6\r\n\r\nsecond";

/// Sends a message in two parts, with a pause between them, and hears its answer.
fn is_served_in_two<R: Clock>(rt: &R, client: &mut Client, at: usize) -> bool {
    let (first, second) = MESSAGE.split_at(at.min(MESSAGE.len()));
    let begun = client.sends(first);
    pause(rt);
    begun && client.sends(second) && client.hears(ANSWER)
}

fn is_served_in_all_parts<R: Net<Stream = TcpStream> + Clock>(rt: &R, port: u16) -> bool {
    let Ok(mut client) = Client::new(rt, port) else {
        return false;
    };
    for at in 1..MESSAGE.len() {
        if !is_served_in_two(rt, &mut client, at) {
            return false;
        }
    }
    true
}

#[test]
fn a_message_may_be_cut_after_each_byte(rt: HostRuntime) -> Result<(), Fail> {
    let server = server::start(rt, rt.alloc(), 1)?;
    let good = is_served_in_all_parts(&rt, server.port);
    server.wait(&rt);
    assert!(rt; good);
    Ok(())
}

fn sends_many(client: &mut Client) -> bool {
    for _ in 0..1000 {
        if !client.sends(MESSAGE) {
            return false;
        }
    }
    true
}

fn hears_many(client: &mut Client) -> bool {
    for _ in 0..1000 {
        if !client.hears(ANSWER) {
            return false;
        }
    }
    true
}

fn is_served_in_a_pile<R: Net<Stream = TcpStream>>(rt: &R, port: u16) -> bool {
    let Ok(mut client) = Client::new(rt, port) else {
        return false;
    };
    sends_many(&mut client) && hears_many(&mut client)
}

#[test]
fn messages_may_be_sent_before_the_first_answer(rt: HostRuntime) -> Result<(), Fail> {
    let server = server::start(rt, rt.alloc(), 1)?;
    let good = is_served_in_a_pile(&rt, server.port);
    server.wait(&rt);
    assert!(rt; good);
    Ok(())
}

/// Sends two messages on two connections, one byte of each in turn.
fn send_mixed(one: &mut Client, two: &mut Client) -> bool {
    for (first, second) in MESSAGE.iter().zip(OTHER.iter()) {
        if !one.sends(&[*first]) || !two.sends(&[*second]) {
            return false;
        }
    }
    two.sends(&OTHER[MESSAGE.len()..])
}

fn are_served_mixed<R: Net<Stream = TcpStream>>(rt: &R, port: u16) -> bool {
    let Ok(mut one) = Client::new(rt, port) else {
        return false;
    };
    let Ok(mut two) = Client::new(rt, port) else {
        return false;
    };
    for _ in 0..10 {
        if !send_mixed(&mut one, &mut two) || !two.hears(OTHER_ANSWER) || !one.hears(ANSWER) {
            return false;
        }
    }
    true
}

#[test]
fn messages_of_two_clients_may_be_cut_into_each_other(rt: HostRuntime) -> Result<(), Fail> {
    let server = server::start(rt, rt.alloc(), 2)?;
    let good = are_served_mixed(&rt, server.port);
    server.wait(&rt);
    assert!(rt; good);
    Ok(())
}
