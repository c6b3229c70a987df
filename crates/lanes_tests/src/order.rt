//! The order in which clients are served, by the one lane that there is.
use crate::client::Client;
use crate::crowds::connect_all;
use crate::server;
use std::alloc::{AllocError, Global};
use std::net::{Net, TcpStream};
use std::test::Fail;
use tcp_lanes::Limits;

/// A message whose answer is the number of its turn.
const TURN: &[u8] = b"GET /turn HTTP/1.1\r\n\r\n";

/// Ten clients, each of which has sent three messages before the next one sends.
fn ask<R: Net<Stream = TcpStream>>(
    rt: &R,
    alloc: Global,
    port: u16,
) -> Result<Vec<Client>, AllocError> {
    let mut clients = connect_all(rt, alloc, port, 10)?;
    for client in clients.iter_mut() {
        client.sends_often(TURN, 3);
    }
    Ok(clients)
}

/// Whether each client in turn hears the next number.
fn hear_round(clients: &mut Vec<Client>, first: u64) -> bool {
    for (client, turn) in clients.iter_mut().zip(first..u64::MAX) {
        if client.hears_turn() != Some(turn) {
            return false;
        }
    }
    true
}

fn hear_in_turn(mut clients: Vec<Client>) -> bool {
    clients.len() == 10
        && hear_round(&mut clients, 0)
        && hear_round(&mut clients, 10)
        && hear_round(&mut clients, 20)
}

// All messages are there before the server begins, so that the order is known in which they were ready.
#[test]
fn clients_are_served_in_the_order_in_which_they_were_ready(rt: HostRuntime) -> Result<(), Fail> {
    let opened = server::open(rt, rt.alloc(), 1, Limits::standard())?;
    let clients = ask(&rt, rt.alloc(), opened.port)?;
    let server = opened.start(rt, rt.alloc(), 1)?;
    let good = hear_in_turn(clients);
    server.wait(&rt);
    assert!(rt; good);
    Ok(())
}

/// How many messages the busy client has sent before the first of them is answered. Each takes a millisecond or more.
const PILE: u64 = 3000;

fn pile(alloc: Global) -> Result<Vec<u8>, AllocError> {
    let mut pile = Vec::new(alloc);
    for _ in 0..PILE {
        pile.extend_from_slice(TURN)?;
    }
    Ok(pile)
}

/// The number of the last of forty messages, each of which is sent when the one before was answered. None where one wasn't.
fn last_turn(client: &mut Client) -> Option<u64> {
    let mut last = None;
    for _ in 0..40 {
        if !client.sends(TURN) {
            return None;
        }
        last = Some(client.hears_turn()?);
    }
    last
}

/// Whether a newcomer is served forty times before all that a busy client sent at once.
fn is_served_beside_busy<R: Net<Stream = TcpStream>>(rt: &R, port: u16, pile: &[u8]) -> bool {
    let Ok(mut busy) = Client::new(rt, port) else {
        return false;
    };
    let begun = busy.sends(pile) && busy.hears_turn() == Some(0);
    let Ok(mut newcomer) = Client::new(rt, port) else {
        return false;
    };
    begun && matches!(last_turn(&mut newcomer), Some(turn) if turn < PILE)
}

#[test]
fn a_newcomer_is_served_beside_one_that_never_pauses(rt: HostRuntime) -> Result<(), Fail> {
    let pile = pile(rt.alloc())?;
    let server = server::start(rt, rt.alloc(), 1)?;
    let good = is_served_beside_busy(&rt, server.port, pile.as_slice());
    server.wait(&rt);
    assert!(rt; good);
    Ok(())
}
