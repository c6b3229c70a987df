//! A server of some workers, which ends when so many links have ended, or when it is stopped.
use crate::session;
use crate::session::{Gate, Shared};
use http_wire::Listener;
use std::alloc::{AllocError, Global};
use std::net::{Ipv4Addr, Net, SocketAddr};
use std::sync::{Arc, Mutex, Wait};
use std::thread::{JoinHandle, Threads};
use std::time::Clock;
use std::{io, thread};
use tcp_lanes::Limits;
use tcp_sets::{SetAccept, SetLimits, SetLink};

/// The socket, and how many links are to be given.
#[derive(Drop)]
struct Door<R: Wait + Clock + Copy + Drop> {
    accept: SetAccept<R>,
    left: u64,
}

/// A server that runs. It has its socket as long as it is.
#[derive(Drop)]
pub struct Server<R: Wait + Clock + Copy + Drop> {
    pub port: u16,
    pub shared: Arc<Shared>,
    workers: Vec<JoinHandle<()>>,
    door: Arc<Mutex<Door<R>>>,
}

/// A limit in milliseconds that no test reaches.
pub const AMPLE: u64 = 60_000;

/// More links than end in a test.
pub const MANY: u64 = 1_000_000;

/// Two sets, ten links, four messages that pause, and sixteen connections, of clients that have so many milliseconds to rest.
pub fn limits(rest: u64) -> SetLimits {
    SetLimits {
        clients: Limits {
            rest,
            message: AMPLE,
            answer: AMPLE,
            sweep: 50,
            connections: 16,
        },
        sets: 2,
        waiting: 4,
        links: 10,
    }
}

/// A further link, unless all were given. The listener is closed with the last one.
fn next_link<R: Wait + Clock + Copy + Drop>(rt: &R, door: &Mutex<Door<R>>) -> Option<SetLink<R>> {
    let mut door = door.lock(rt);
    door.left = door.left.checked_sub(1)?;
    let link = door.accept.accept().ok();
    if door.left == 0 {
        door.accept.close();
    }
    link
}

fn work<R: Wait + Clock + Copy + Drop>(
    rt: R,
    alloc: Global,
    door: Arc<Mutex<Door<R>>>,
    shared: Arc<Shared>,
) {
    for _ in rt.forever() {
        let Some(mut link) = next_link(&rt, &door) else {
            return;
        };
        session::serve(&rt, alloc, &mut link, &shared);
    }
}

fn start_worker<R: Threads + Wait + Clock + Copy + Drop + Send + 'static>(
    rt: R,
    alloc: Global,
    door: Arc<Mutex<Door<R>>>,
    shared: Arc<Shared>,
) -> Result<JoinHandle<()>, AllocError> {
    let job = move || work(rt, alloc, door, shared);
    Ok(thread::spawn(&rt, job)?)
}

/// Starts a server of eight workers on a port that the system picks, which ends when that many links have ended or it is stopped.
pub fn start<R: Threads + Wait + Net + Clock + Copy + Drop + Send + 'static>(
    rt: R,
    alloc: Global,
    links: u64,
    limits: SetLimits,
) -> io::Result<Server<R>> {
    let here = SocketAddr::from((Ipv4Addr::LOCALHOST, 0));
    let accept = SetAccept::bind(rt, alloc, here, limits)?;
    let port = accept.port()?;
    let shared = Shared {
        gate: Gate::new(),
        switch: accept.stop_switch()?,
    };
    let shared = Arc::new(alloc, shared).map_err(AllocError::from)?;
    let door = Mutex::new(Door {
        accept,
        left: links,
    });
    let door = Arc::new(alloc, door).map_err(AllocError::from)?;
    let mut workers = Vec::new(alloc);
    for _ in 0..8 {
        let worker = start_worker(rt, alloc, door.clone()?, shared.clone()?)?;
        workers.push(worker).map_err(AllocError::from)?;
    }
    Ok(Server {
        port,
        shared,
        workers,
        door,
    })
}

impl<R: Threads + Wait + Clock + Copy + Drop> Server<R> {
    /// Waits until its workers have ended, while it still has its socket.
    pub fn wait(&mut self, rt: &R) {
        for _ in 0..self.workers.len() {
            if let Some(worker) = self.workers.pop() {
                worker.join(rt);
            }
        }
    }

    /// Stops it, and waits until it has ended.
    pub fn end(mut self, rt: &R) {
        self.shared.switch.stop(rt);
        self.wait(rt);
    }
}
