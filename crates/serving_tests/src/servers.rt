//! A server over connections in memory.
use crate::door::{Door, HeardLink};
use crate::stage::{Stage, served, sources, supply};
use crate::texts::{are_of_one_render, has};
use base::Trace;
use command_status::Status;
use http_wire::{ListOfLinks, MemoryLink, MemorySink};
use server_command::ServerEnd;
use std::alloc::Global;
use std::sync::{Mutex, Wait};
use std::test::Fail;
use std::thread::Threads;

/// The one message of a connection: a tile of the built-in catalogue.
const MESSAGE: &[u8] =
    b"GET /rest/wmts/demo/grey/tiny/0/0/0.ppm HTTP/1.1\r\nConnection: close\r\n\r\n";

/// A connection of the message, whose output goes there.
fn link<'a, R: Wait>(
    rt: &'a R,
    alloc: Global,
    heard: &'a Mutex<Vec<u8>>,
) -> Result<HeardLink<'a, R>, Fail> {
    Ok(HeardLink {
        rt,
        source: supply(alloc, MESSAGE)?,
        heard,
    })
}

/// A connection of the message that nobody hears.
fn plain_link(alloc: Global) -> Result<MemoryLink, Fail> {
    Ok(MemoryLink::new(
        supply(alloc, MESSAGE)?,
        MemorySink::new(alloc, Vec::new(alloc)),
    ))
}

#[test]
fn a_listener_that_gives_too_few(rt: HostRuntime) -> Result<(), Fail> {
    let alloc = rt.alloc();
    let links = vec![in alloc; plain_link(alloc)?, plain_link(alloc)?]?;
    let mut listener = ListOfLinks::new(links);
    let end = served(
        &rt,
        alloc,
        3,
        Stage::new(alloc)?,
        &mut listener,
        sources(alloc)?,
    );
    assert!(rt; end == ServerEnd::Ended(Status::ListenFault));
    assert!(rt; end.code() == 14);
    Ok(())
}

/// Serves two connections of the message, whose outputs go to these.
fn serve_two<R: Threads + Wait + std::time::Clock + Sync>(
    rt: &R,
    alloc: Global,
    first: &Mutex<Vec<u8>>,
    second: &Mutex<Vec<u8>>,
) -> Result<ServerEnd, Fail> {
    let links = vec![in alloc; link(rt, alloc, first)?, link(rt, alloc, second)?]?;
    let mut door = Door {
        links,
        given: Trace::new(),
        faults: 0,
        closed: false,
    };
    Ok(served(rt, alloc, 2, Stage::new(alloc)?, &mut door, sources(alloc)?))
}

#[test]
fn one_renders_and_the_other_hits(rt: HostRuntime) -> Result<(), Fail> {
    let alloc = rt.alloc();
    let first = Mutex::new(Vec::new(alloc));
    let second = Mutex::new(Vec::new(alloc));
    let end = serve_two(&rt, alloc, &first, &second)?;
    assert!(rt; end == ServerEnd::Ended(Status::Done));
    let first = first.lock(&rt);
    let second = second.lock(&rt);
    let (first, second) = (first.as_slice(), second.as_slice());
    assert!(rt; are_of_one_render(first, second));
    assert!(rt; has(first, b"result: MISS") != has(second, b"result: MISS"));
    assert!(rt; has(first, b"result: HIT") != has(second, b"result: HIT"));
    Ok(())
}
