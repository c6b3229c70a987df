//! How many links are given, and when.
use crate::client::Client;
use crate::crowds::connect_all;
use crate::server;
use http_wire::Listener;
use std::alloc::Global;
use std::net::{Net, TcpStream};
use std::sync::{Arc, Mutex, Wait};
use std::test::Fail;
use std::thread;
use std::time::{Clock, Duration};
use tcp_lanes::{LANES, Limits, TcpAccept, TcpLink};

/// As many links as there may be at a time, or fewer where one isn't given.
fn all_links<R: Wait + Clock + Copy + Drop>(
    alloc: Global,
    accept: &mut TcpAccept<R>,
) -> Vec<TcpLink<R>> {
    let mut links = Vec::new(alloc);
    for _ in 0..LANES {
        if let Ok(link) = accept.accept() {
            let _ = links.push(link);
        }
    }
    links
}

/// Takes one link more, and notes that it was given.
fn take_one_more<R: Wait + Clock + Copy + Drop>(
    rt: &R,
    mut accept: TcpAccept<R>,
    given: &Mutex<bool>,
) {
    let link = accept.accept();
    *given.lock(rt) = link.is_ok();
}

#[test]
fn one_link_more_waits_until_one_ends(rt: HostRuntime) -> Result<(), Fail> {
    let mut accept = TcpAccept::bind(rt, rt.alloc(), 0)?;
    let mut links = all_links(rt.alloc(), &mut accept);
    let full = links.len() == LANES;
    let given = Arc::new(rt.alloc(), Mutex::new(false))?;
    let noted = given.clone()?;
    let taker = thread::spawn(&rt, move || take_one_more(&rt, accept, &noted))?;
    thread::sleep(&rt, Duration::from_millis(50));
    let early = *given.lock(&rt);
    drop(links.pop());
    taker.join(&rt);
    assert!(rt; full && !early && *given.lock(&rt));
    Ok(())
}

fn are_served_last(clients: &mut Vec<Client>) -> bool {
    for client in clients.iter_mut() {
        if !client.is_served_last() {
            return false;
        }
    }
    true
}

/// Whether ten clients are served to their ends, and one that stays till the last of them ends.
fn are_served_to_their_ends<R: Net<Stream = TcpStream>>(rt: &R, alloc: Global, port: u16) -> bool {
    let Ok(mut clients) = connect_all(rt, alloc, port, 9) else {
        return false;
    };
    let Ok(mut tenth) = Client::new(rt, port) else {
        return false;
    };
    let Ok(mut staying) = Client::new(rt, port) else {
        return false;
    };
    clients.len() == 9
        && staying.is_served()
        && are_served_last(&mut clients)
        && staying.is_served()
        && tenth.is_served_last()
        && staying.is_closed()
}

// There are more workers than lanes, so that some of them wait for a link.
#[test]
fn links_are_connections_that_end(rt: HostRuntime) -> Result<(), Fail> {
    let opened = server::open(rt, rt.alloc(), 10, Limits::standard())?;
    let port = opened.port;
    let server = opened.start(rt, rt.alloc(), LANES + 2)?;
    let good = are_served_to_their_ends(&rt, rt.alloc(), port);
    server.wait(&rt);
    assert!(rt; good);
    Ok(())
}
