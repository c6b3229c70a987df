//! Messages that pause.
use crate::client::{Client, pause};
use crate::server;
use crate::server::{AMPLE, MANY, Server, limits};
use crate::session::Gate;
use std::alloc::{AllocError, Global};
use std::net::{Net, TcpStream};
use std::sync::Wait;
use std::test::Fail;
use std::thread::Threads;
use std::time::Clock;

/// So many clients whose messages are held back.
fn held<R: Net<Stream = TcpStream>>(
    rt: &R,
    alloc: Global,
    port: u16,
    count: usize,
) -> Result<Vec<Client>, AllocError> {
    let mut clients = Vec::new(alloc);
    for _ in 0..count {
        if let Ok(mut client) = Client::new(rt, port) {
            if client.sends(b"GET /held HTTP/1.1\r\n\r\n") {
                clients.push(client).map_err(AllocError::from)?;
            }
        }
    }
    Ok(clients)
}

/// Whether so many come to the gate within ten seconds.
fn are_waited_for<R: Wait + Clock>(rt: &R, gate: &Gate, count: u64) -> bool {
    for _ in 0..5000 {
        if gate.count(rt) >= count {
            return true;
        }
        pause(rt);
    }
    false
}

fn hear_all(clients: &mut Vec<Client>) -> bool {
    for client in clients.iter_mut() {
        if !client.hears_status(b"200") {
            return false;
        }
    }
    true
}

fn are_served_again(clients: &mut Vec<Client>) -> bool {
    for client in clients.iter_mut() {
        if !client.is_served() {
            return false;
        }
    }
    true
}

/// Whether one that asks for what others wait for is turned away, and goes on.
fn is_turned_away(client: &mut Client) -> bool {
    client.sends(b"GET /held HTTP/1.1\r\n\r\n") && client.hears_status(b"503") && client.is_served()
}

/// Whether others are served while four wait, the fifth that would wait is turned away, and the four are answered once they may be, and
/// then served again.
fn are_served_beside<R: Net<Stream = TcpStream> + Wait + Clock>(
    rt: &R,
    alloc: Global,
    port: u16,
    gate: &Gate,
) -> bool {
    let Ok(mut waiting) = held(rt, alloc, port, 4) else {
        return false;
    };
    let Ok(mut other) = Client::new(rt, port) else {
        return false;
    };
    let away = waiting.len() == 4
        && are_waited_for(rt, gate, 4)
        && other.is_served()
        && is_turned_away(&mut other);
    gate.open(rt);
    away && hear_all(&mut waiting) && are_served_again(&mut waiting) && other.is_served_last()
}

#[test]
fn others_are_served_while_four_wait(rt: HostRuntime) -> Result<(), Fail> {
    let server = server::start(rt, rt.alloc(), MANY, limits(AMPLE))?;
    let good = are_served_beside(&rt, rt.alloc(), server.port, &server.shared.gate);
    server.end(&rt);
    assert!(rt; good);
    Ok(())
}

/// Whether places are free again behind each pause.
fn wait_again<R: Net<Stream = TcpStream>>(rt: &R, alloc: Global, port: u16) -> bool {
    for _ in 0..5 {
        let Ok(mut clients) = held(rt, alloc, port, 3) else {
            return false;
        };
        if clients.len() != 3 || !hear_all(&mut clients) || !are_served_again(&mut clients) {
            return false;
        }
    }
    true
}

#[test]
fn a_place_is_free_behind_its_pause(rt: HostRuntime) -> Result<(), Fail> {
    let server = server::start(rt, rt.alloc(), MANY, limits(AMPLE))?;
    server.shared.gate.open(&rt);
    let good = wait_again(&rt, rt.alloc(), server.port);
    server.end(&rt);
    assert!(rt; good);
    Ok(())
}

/// Whether a server that is stopped while messages wait answers them, and ends.
fn are_answered_behind_stop<R: Net<Stream = TcpStream> + Threads + Wait + Clock + Copy + Drop>(
    rt: &R,
    alloc: Global,
    server: &Server<R>,
) -> bool {
    let Ok(mut waiting) = held(rt, alloc, server.port, 4) else {
        return false;
    };
    let gate = &server.shared.gate;
    let held = waiting.len() == 4 && are_waited_for(rt, gate, 4);
    server.shared.switch.stop(rt);
    gate.open(rt);
    held && hear_all(&mut waiting)
}

#[test]
fn those_that_wait_are_answered_at_the_end(rt: HostRuntime) -> Result<(), Fail> {
    let server = server::start(rt, rt.alloc(), MANY, limits(AMPLE))?;
    let good = are_answered_behind_stop(&rt, rt.alloc(), &server);
    server.end(&rt);
    assert!(rt; good);
    Ok(())
}
