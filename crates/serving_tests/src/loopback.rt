//! A server over sockets of the loopback.
ghost use Rattle.std.specs.Prelude.{length, ◌≡◌, ◌≤◌};

use crate::answers::{
    CORNER, CORNER_HIT, CORNER_MISSED, JOB, JOB_SUBMITTED, RIGHT, RIGHT_MISSED, WHOLE, WHOLE_HIT,
    WHOLE_MISSED,
};
use crate::client::answer_to;
use crate::held::Hold;
use crate::stage::{Stage, held_sources, served, sources};
use command_status::Status;
use server_command::ServerEnd;
use server_workers::SOURCES;
use source_render::Source;
use std::alloc::Global;
use std::net::{Net, TcpStream};
use std::sync::Wait;
use std::test::Fail;
use std::thread;
use std::thread::Threads;
use std::time::Clock;
use tcp_lanes::TcpAccept;

/// What a client read.
#[derive(Clone, Copy, PartialEq, Eq)]
enum Heard {
    /// The whole of zoom 0, as rendered for it.
    Missed,
    /// The same, as kept.
    Hit,
    /// Anything else.
    Other,
}

/// Serves so many connections of the socket, and closes it.
fn serve<R: Threads + Wait + Clock + Copy + Drop + Send + Sync, S: Source + Send>(
    rt: &R,
    alloc: Global,
    connections: u32,
    accept: TcpAccept<R>,
    stage: Stage,
    sources: Vec<S>,
) -> ServerEnd
    requires sources { length sources.items ≡ SOURCES }
    requires connections { (1 ≤ connections) × (connections ≤ 1000000) }
{
    let mut accept = accept;
    served(rt, alloc, connections, stage, &mut accept, sources)
}

/// Asks the server on that port for the whole of zoom 0.
fn ask_for_whole<R: Net<Stream = TcpStream>>(rt: &R, alloc: Global, port: u16) -> Heard {
    match answer_to(rt, alloc, port, WHOLE) {
        Ok(answer) if answer.as_slice() == WHOLE_MISSED => Heard::Missed,
        Ok(answer) if answer.as_slice() == WHOLE_HIT => Heard::Hit,
        _ => Heard::Other,
    }
}

/// How many of the clients read that.
fn count(heard: &[Heard], which: Heard) -> usize {
    heard.iter().filter(|one| **one == which).count()
}

#[test]
fn three_clients_read_one_render(rt: HostRuntime) -> Result<(), Fail> {
    let alloc = rt.alloc();
    let stage = Stage::new(alloc)?;
    let sources = sources(alloc)?;
    let accept = TcpAccept::bind(rt, alloc, 0)?;
    let port = accept.port()?;
    let first = thread::spawn(&rt, move || ask_for_whole(&rt, alloc, port))?;
    let second = thread::spawn(&rt, move || ask_for_whole(&rt, alloc, port))?;
    let third = thread::spawn(&rt, move || ask_for_whole(&rt, alloc, port))?;
    let end = serve(&rt, alloc, 3, accept, stage, sources);
    let heard = [first.join(&rt), second.join(&rt), third.join(&rt)];
    assert!(rt; end == ServerEnd::Ended(Status::Done));
    assert!(rt; count(&heard, Heard::Missed) == 1);
    assert!(rt; count(&heard, Heard::Hit) == 2);
    Ok(())
}

/// Whether the server on that port answers exactly so.
fn is_answered<R: Net<Stream = TcpStream>>(
    rt: &R,
    alloc: Global,
    port: u16,
    message: &[u8],
    wanted: &[u8],
) -> bool {
    match answer_to(rt, alloc, port, message) {
        Ok(answer) => answer.as_slice() == wanted,
        Err(_) => false,
    }
}

/// Asks for the tile beside once the render is held. Whether it was read while the render was held.
fn is_answered_meanwhile<R: Net<Stream = TcpStream>>(
    rt: &R,
    alloc: Global,
    port: u16,
    hold: &Hold,
) -> bool {
    let begun = hold.begins();
    let answered = is_answered(rt, alloc, port, RIGHT, RIGHT_MISSED);
    let held = hold.release();
    begun && answered && held
}

#[test]
fn a_worker_serves_beside_one_that_renders(rt: HostRuntime) -> Result<(), Fail> {
    let alloc = rt.alloc();
    let stage = Stage::new(alloc)?;
    let hold = Hold::new(alloc)?;
    let sources = held_sources(alloc, &hold)?;
    let accept = TcpAccept::bind(rt, alloc, 0)?;
    let port = accept.port()?;
    let held = thread::spawn(
        &rt,
        move || is_answered(&rt, alloc, port, CORNER, CORNER_MISSED),
    )?;
    let beside = thread::spawn(&rt, move || is_answered_meanwhile(&rt, alloc, port, &hold))?;
    let end = serve(&rt, alloc, 2, accept, stage, sources);
    let held = held.join(&rt);
    let beside = beside.join(&rt);
    assert!(rt; end == ServerEnd::Ended(Status::Done));
    assert!(rt; beside);
    assert!(rt; held);
    Ok(())
}

/// Submits a job, and asks for the tile of its first place once that is being rendered. Whether it is the job's render.
fn is_seeded<R: Net<Stream = TcpStream>>(rt: &R, alloc: Global, port: u16, hold: &Hold) -> bool {
    let submitted = is_answered(rt, alloc, port, JOB, JOB_SUBMITTED);
    let begun = hold.begins();
    let held = hold.release();
    submitted && begun && held && is_answered(rt, alloc, port, CORNER, CORNER_HIT)
}

#[test]
fn a_job_is_run_while_links_are_served(rt: HostRuntime) -> Result<(), Fail> {
    let alloc = rt.alloc();
    let stage = Stage::new(alloc)?;
    let hold = Hold::new(alloc)?;
    let sources = held_sources(alloc, &hold)?;
    let accept = TcpAccept::bind(rt, alloc, 0)?;
    let port = accept.port()?;
    let client = thread::spawn(&rt, move || is_seeded(&rt, alloc, port, &hold))?;
    let end = serve(&rt, alloc, 2, accept, stage, sources);
    let seeded = client.join(&rt);
    assert!(rt; end == ServerEnd::Ended(Status::Done));
    assert!(rt; seeded);
    Ok(())
}
