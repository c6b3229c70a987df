//! A server of some workers, which ends when so many links have ended.
use crate::session;
use http_wire::Listener;
use std::alloc::{AllocError, Global};
use std::net::Net;
use std::sync::{Arc, Mutex, Wait};
use std::thread::{JoinHandle, Threads};
use std::time::Clock;
use std::{io, thread};
use tcp_lanes::{Limits, TcpAccept, TcpLink};

/// The socket, and how many links are to be given.
#[derive(Drop)]
struct Door<R: Wait + Clock + Copy + Drop> {
    accept: TcpAccept<R>,
    left: u64,
}

/// A server that listens, and serves nobody yet.
#[derive(Drop)]
pub struct Opened<R: Wait + Clock + Copy + Drop> {
    pub port: u16,
    door: Arc<Mutex<Door<R>>>,
}

/// A server that runs. It has its socket as long as it is.
#[derive(Drop)]
pub struct Server<R: Wait + Clock + Copy + Drop> {
    pub port: u16,
    workers: Vec<JoinHandle<()>>,
    door: Arc<Mutex<Door<R>>>,
}

/// A further link, unless all were given. The listener is closed with the last one.
fn next_link<R: Wait + Clock + Copy + Drop>(rt: &R, door: &Mutex<Door<R>>) -> Option<TcpLink<R>> {
    let mut door = door.lock(rt);
    door.left = door.left.checked_sub(1)?;
    let link = door.accept.accept().ok();
    if door.left == 0 {
        door.accept.close();
    }
    link
}

fn work<R: Wait + Clock + Copy + Drop>(rt: R, alloc: Global, door: Arc<Mutex<Door<R>>>) {
    for _ in rt.forever() {
        let Some(mut link) = next_link(&rt, &door) else {
            return;
        };
        session::serve(&rt, alloc, &mut link);
    }
}

fn start_worker<R: Threads + Wait + Clock + Copy + Drop + Send + 'static>(
    rt: R,
    alloc: Global,
    door: Arc<Mutex<Door<R>>>,
) -> Result<JoinHandle<()>, AllocError> {
    let job = move || work(rt, alloc, door);
    Ok(thread::spawn(&rt, job)?)
}

/// Opens a server on a port that the system picks, which ends when that many links have ended.
pub fn open<R: Wait + Net + Clock + Copy + Drop>(
    rt: R,
    alloc: Global,
    links: u64,
    limits: Limits,
) -> io::Result<Opened<R>> {
    let accept = TcpAccept::bind_within(rt, alloc, 0, limits)?;
    let port = accept.port()?;
    let door = Mutex::new(Door {
        accept,
        left: links,
    });
    let door = Arc::new(alloc, door).map_err(AllocError::from)?;
    Ok(Opened { port, door })
}

impl<R: Threads + Wait + Clock + Copy + Drop + Send + 'static> Opened<R> {
    /// Starts to serve, with so many workers.
    pub fn start(self, rt: R, alloc: Global, count: usize) -> Result<Server<R>, AllocError> {
        let mut workers = Vec::new(alloc);
        for _ in 0..count {
            let worker = start_worker(rt, alloc, self.door.clone()?)?;
            workers.push(worker).map_err(AllocError::from)?;
        }
        Ok(Server {
            port: self.port,
            workers,
            door: self.door,
        })
    }
}

/// Starts a server of four workers on a port that the system picks, which ends when that many links have ended.
pub fn start<R: Threads + Wait + Net + Clock + Copy + Drop + Send + 'static>(
    rt: R,
    alloc: Global,
    links: u64,
) -> io::Result<Server<R>> {
    start_within(rt, alloc, links, Limits::standard())
}

/// The same, with limits of its own.
pub fn start_within<R: Threads + Wait + Net + Clock + Copy + Drop + Send + 'static>(
    rt: R,
    alloc: Global,
    links: u64,
    limits: Limits,
) -> io::Result<Server<R>> {
    let opened = open(rt, alloc, links, limits)?;
    Ok(opened.start(rt, alloc, 4)?)
}

impl<R: Threads + Wait + Clock + Copy + Drop> Server<R> {
    /// Waits until it has ended.
    pub fn wait(self, rt: &R) {
        drop(self.wait_for_workers(rt));
    }

    /// Waits until its workers have ended, and gives what still has its socket.
    pub fn wait_for_workers(self, rt: &R) -> Opened<R> {
        let Server {
            port,
            workers,
            door,
        } = self;
        for worker in workers {
            worker.join(rt);
        }
        Opened { port, door }
    }
}
