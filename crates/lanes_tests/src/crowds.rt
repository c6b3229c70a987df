//! Many clients at once.
use crate::client::Client;
use crate::server;
use std::alloc::{AllocError, Global};
use std::net::{Net, TcpStream};
use std::test::Fail;

const CROWD: usize = 100;

/// So many clients, or fewer where the system refuses some.
pub fn connect_all<R: Net<Stream = TcpStream>>(
    rt: &R,
    alloc: Global,
    port: u16,
    count: usize,
) -> Result<Vec<Client>, AllocError> {
    let mut clients = Vec::new(alloc);
    for _ in 0..count {
        if let Ok(client) = Client::new(rt, port) {
            clients.push(client).map_err(AllocError::from)?;
        }
    }
    Ok(clients)
}

fn ask_all(clients: &mut Vec<Client>) -> bool {
    for client in clients.iter_mut() {
        if !client.sends(b"GET /long HTTP/1.1\r\n\r\n") {
            return false;
        }
    }
    true
}

fn hear_all(clients: &mut Vec<Client>) -> bool {
    for client in clients.iter_mut() {
        if !client.hears_long() {
            return false;
        }
    }
    true
}

fn are_served_at_once<R: Net<Stream = TcpStream>>(rt: &R, alloc: Global, port: u16) -> bool {
    let Ok(mut clients) = connect_all(rt, alloc, port, CROWD) else {
        return false;
    };
    clients.len() == CROWD && ask_all(&mut clients) && hear_all(&mut clients)
}

#[test]
fn a_hundred_are_served_at_once(rt: HostRuntime) -> Result<(), Fail> {
    let server = server::start(rt, rt.alloc(), 100)?;
    let good = are_served_at_once(&rt, rt.alloc(), server.port);
    server.wait(&rt);
    assert!(rt; good);
    Ok(())
}
