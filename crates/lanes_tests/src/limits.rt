//! As many clients as may be connected, and as many messages as one lane serves.
use crate::client::Client;
use crate::crowds::connect_all;
use crate::server;
use std::alloc::Global;
use std::fs::{File, Files};
use std::net::{Net, TcpStream};
use std::test::Fail;
use tcp_lanes::Limits;

fn are_served(clients: &mut Vec<Client>) -> bool {
    for client in clients.iter_mut() {
        if !client.is_served() {
            return false;
        }
    }
    true
}

/// Whether one more client waits until another one ends, and is served then.
fn one_more_waits<R: Net<Stream = TcpStream>>(
    rt: &R,
    port: u16,
    clients: &mut Vec<Client>,
) -> bool {
    let Ok(mut late) = Client::new(rt, port) else {
        return false;
    };
    let waits = late.sends(b"GET / HTTP/1.1\r\n\r\n") && late.hears_nothing();
    drop(clients.pop());
    waits && late.hears_status(b"200")
}

fn are_served_up_to_the_limit<R: Net<Stream = TcpStream>>(
    rt: &R,
    alloc: Global,
    port: u16,
    count: usize,
) -> bool {
    let Ok(mut clients) = connect_all(rt, alloc, port, count) else {
        return false;
    };
    clients.len() == count
        && are_served(&mut clients)
        && one_more_waits(rt, port, &mut clients)
        && are_served(&mut clients)
}

/// Whether this process may have so many files open.
fn may_open<R: Files>(rt: &R, alloc: Global, count: usize) -> bool {
    let mut files = Vec::new(alloc);
    for _ in 0..count {
        let Ok(file) = File::open(rt, "/dev/null") else {
            return false;
        };
        if files.push(file).is_err() {
            return false;
        }
    }
    true
}

#[test]
fn clients_are_connected_up_to_the_limit(rt: HostRuntime) -> Result<(), Fail> {
    let limits = Limits {
        rest: 60_000,
        message: 60_000,
        answer: 60_000,
        sweep: 50,
        connections: 8,
    };
    let server = server::start_within(rt, rt.alloc(), 3, limits)?;
    let good = are_served_up_to_the_limit(&rt, rt.alloc(), server.port, 8);
    server.wait(&rt);
    assert!(rt; good);
    Ok(())
}

// The clients are of the same process, so that it has two files open for each connection. Where it may not, nothing is tested.
#[test]
fn a_thousand_are_connected_and_the_next_one_waits(rt: HostRuntime) -> Result<(), Fail> {
    let limits = Limits::standard();
    if !may_open(&rt, rt.alloc(), 2 * limits.connections + 100) {
        return Ok(());
    }
    let server = server::start(rt, rt.alloc(), 3)?;
    let good = are_served_up_to_the_limit(&rt, rt.alloc(), server.port, limits.connections);
    server.wait(&rt);
    assert!(rt; good);
    Ok(())
}

/// Sends a thousand messages at once, and hears so many answers.
fn is_served_often(client: &mut Client, answers: usize) -> bool {
    if !client.sends_often(b"GET / HTTP/1.1\r\n\r\n", 1000) {
        return false;
    }
    for _ in 0..answers {
        if !client.hears_status(b"200") {
            return false;
        }
    }
    true
}

/// Whether a client is answered 9,999 times that sends 10,000 messages and more, since another one was answered once in their midst.
fn is_served_up_to_the_last<R: Net<Stream = TcpStream>>(rt: &R, port: u16) -> bool {
    let Ok(mut busy) = Client::new(rt, port) else {
        return false;
    };
    let Ok(mut other) = Client::new(rt, port) else {
        return false;
    };
    for _ in 0..9 {
        if !is_served_often(&mut busy, 1000) {
            return false;
        }
    }
    other.is_served() && is_served_often(&mut busy, 999) && !busy.hears_status(b"200")
}

#[test]
fn a_lane_ends_behind_ten_thousand_messages(rt: HostRuntime) -> Result<(), Fail> {
    let server = server::start(rt, rt.alloc(), 1)?;
    let good = is_served_up_to_the_last(&rt, server.port);
    server.wait(&rt);
    assert!(rt; good);
    Ok(())
}
