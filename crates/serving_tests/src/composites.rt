//! A server with recipes, over connections in memory.
use crate::door::{Door, HeardLink};
use crate::stage::{Stage, served, sources, supply};
use crate::texts::has;
use base::Trace;
use command_status::Status;
use layer_recipes::{BookFault, RecipeFault, RecipeField};
use server_command::ServerEnd;
use std::alloc::Global;
use std::sync::{Mutex, Wait};
use std::test::Fail;
use std::thread::Threads;
use std::time::Clock;

/// A recipe of two parts, both of the one layer of the built-in catalogue.
const RECIPES: &[u8] = b"{\"both\":{\"grid\":\"tiny\",\"parts\":[\
    {\"layer\":\"demo\",\"style\":\"grey\",\"key\":[127,127,127]},{\"layer\":\"demo\",\"style\":\"grey\",\"key\":[0,0,0]}]}}";

/// A recipe whose parts are absent, behind one that is in order.
const REFUSED: &[u8] =
    b"{\"one\":{\"grid\":\"tiny\",\"parts\":[{\"layer\":\"demo\",\"style\":\"grey\",\"key\":[0,0,0]}]},\"two\":{\"grid\":\"tiny\"}}";

/// Asks for the composite of the one tile at zoom 0.
const MESSAGE: &[u8] = b"GET /composites/both/0/0/0.ppm HTTP/1.1\r\nConnection: close\r\n\r\n";

/// That composite: both parts show the one render.
const COMPOSITE: &[u8] =
    b"HTTP/1.1 200 OK\r\nContent-Type: image/x-portable-pixmap\r\nContent-Length: 23\r\n\
    composite-renders: 1099511627777,1099511627777\r\nConnection: close\r\n\r\n\
    P6\n2 2\n255\n\x7f\x7f\x7f\x07\x07\x07\xe7\xe7\xe7\x6f\x6f\x6f";

/// Serves one connection, which asks for the composite, with the recipes of a text.
fn serve_message<R: Threads + Wait + Clock + Sync>(
    rt: &R,
    alloc: Global,
    recipes: &[u8],
    heard: &Mutex<Vec<u8>>,
) -> Result<ServerEnd, Fail> {
    let link = HeardLink {
        rt,
        source: supply(alloc, MESSAGE)?,
        heard,
    };
    let mut door = Door {
        links: vec![in alloc; link]?,
        given: Trace::new(),
        faults: 0,
        closed: false,
    };
    let stage = Stage::with_recipes(alloc, recipes)?;
    Ok(served(rt, alloc, 1, stage, &mut door, sources(alloc)?))
}

#[test]
fn a_composite_is_served(rt: HostRuntime) -> Result<(), Fail> {
    let alloc = rt.alloc();
    let heard = Mutex::new(Vec::new(alloc));
    let end = serve_message(&rt, alloc, RECIPES, &heard)?;
    assert!(rt; end == ServerEnd::Ended(Status::Done));
    assert!(rt; heard.lock(&rt).as_slice() == COMPOSITE);
    Ok(())
}

#[test]
fn without_recipes_there_is_none(rt: HostRuntime) -> Result<(), Fail> {
    let alloc = rt.alloc();
    let heard = Mutex::new(Vec::new(alloc));
    let end = serve_message(&rt, alloc, b"", &heard)?;
    assert!(rt; end == ServerEnd::Ended(Status::Done));
    assert!(rt; has(heard.lock(&rt).as_slice(), b"HTTP/1.1 404 "));
    Ok(())
}

#[test]
fn refused_recipes_serve_nobody(rt: HostRuntime) -> Result<(), Fail> {
    let alloc = rt.alloc();
    let heard = Mutex::new(Vec::new(alloc));
    let end = serve_message(&rt, alloc, REFUSED, &heard)?;
    let fault = RecipeFault::Missing(RecipeField::Parts, 0);
    assert!(rt; end == ServerEnd::Recipes(BookFault::Recipe(1, fault)));
    assert!(rt; end.code() == 15);
    let line = format!(in alloc; "{end}")?;
    assert!(rt; line.as_str() == "recipes 1 missing Parts 0");
    assert!(rt; heard.lock(&rt).as_slice().is_empty());
    Ok(())
}
