//! A session over a link, which answers each message by its target.
use http_wire::{Link, Message, MessageReader, Next, send_both};
use std::alloc::{AllocError, Global};
use std::sync::{Condvar, Mutex, Wait};
use std::time::Clock;
use tcp_sets::{SetLink, StopSwitch};

/// How many bytes a vast answer has: more than the sockets of both sides ever take while its client doesn't read.
pub const VAST: usize = 16_000_000;

/// The byte of which a vast answer is made.
pub const BYTE: u8 = b'l';

/// What holds messages back, as a render does: those that pause until it is opened.
#[derive(Drop)]
pub struct Gate {
    is_open: Mutex<bool>,
    opened: Condvar,
    waiting: Mutex<u64>,
}

impl Gate {
    /// A gate that is shut.
    pub fn new() -> Gate {
        Gate {
            is_open: Mutex::new(false),
            opened: Condvar::new(),
            waiting: Mutex::new(0),
        }
    }

    /// Lets all go on that it holds back, and all that come.
    pub fn open<R: Wait>(&self, rt: &R) {
        *self.is_open.lock(rt) = true;
        self.opened.notify_all();
    }

    /// How many came to it.
    pub fn count<R: Wait>(&self, rt: &R) -> u64 {
        *self.waiting.lock(rt)
    }

    fn pass<R: Wait>(&self, rt: &R) {
        let mut waiting = self.waiting.lock(rt);
        *waiting = waiting.saturating_add(1);
        drop(waiting);
        let guard = self.is_open.lock(rt);
        drop(self.opened.wait_while(rt, guard, |is_open| !*is_open));
    }
}

/// What the sessions of a server share.
#[derive(Drop)]
pub struct Shared {
    pub gate: Gate,
    pub switch: StopSwitch,
}

fn head_of(alloc: Global, status: u16, size: usize) -> Result<String, AllocError> {
    format!(in alloc; "HTTP/1.1 {status} X\r\nContent-Length: {size}\r\n\r\n")
}

fn send_answer<L: Link>(alloc: Global, link: &mut L, status: u16, body: &[u8]) -> bool {
    let Ok(head) = head_of(alloc, status, body.len()) else {
        return false;
    };
    send_both(link, head.as_bytes(), body).is_ok()
}

fn send_bytes<L: Link>(alloc: Global, link: &mut L, size: usize) -> bool {
    let Ok(body) = Vec::from_elem(alloc, BYTE, size) else {
        return false;
    };
    send_answer(alloc, link, 200, body.as_slice())
}

/// Answers once the gate is open, unless it is turned away. It pauses twice, as one message may.
fn answer_held<R: Wait + Clock + Drop>(
    rt: &R,
    alloc: Global,
    link: &mut SetLink<R>,
    shared: &Shared,
) -> bool {
    if link.pause().is_err() || link.pause().is_err() {
        return send_answer(alloc, link, 503, b"");
    }
    shared.gate.pass(rt);
    link.resume();
    send_answer(alloc, link, 200, b"")
}

/// Answers a message: many bytes at `/vast`, behind a gate at `/held`, with an end of the server at `/stop` where it is
/// of this machine, and the message's own body elsewhere.
fn answer<R: Wait + Clock + Drop>(
    rt: &R,
    alloc: Global,
    link: &mut SetLink<R>,
    shared: &Shared,
    message: &Message,
) -> bool {
    let target = message.target.bytes();
    if target == b"/held".as_slice() {
        return answer_held(rt, alloc, link, shared);
    }
    if target == b"/vast".as_slice() {
        return send_bytes(alloc, link, VAST);
    }
    if target == b"/stop".as_slice() && link.is_local() {
        shared.switch.stop(rt);
    }
    send_answer(alloc, link, 200, message.body.bytes())
}

/// Whether the session goes on behind what stands next.
fn goes_on<R: Wait + Clock + Drop>(
    rt: &R,
    alloc: Global,
    link: &mut SetLink<R>,
    shared: &Shared,
    next: Next,
) -> bool {
    match next {
        Next::Message(message) => answer(rt, alloc, link, shared, &message) && !message.last,
        Next::Bad(status) => {
            send_answer(alloc, link, status, b"");
            false
        }
        _ => false,
    }
}

/// Serves the messages of a link to its end.
pub fn serve<R: Wait + Clock + Drop>(
    rt: &R,
    alloc: Global,
    link: &mut SetLink<R>,
    shared: &Shared,
) {
    let Ok(mut reader) = MessageReader::new(alloc) else {
        return;
    };
    for _ in rt.forever() {
        let Ok(next) = reader.next(alloc, link) else {
            return;
        };
        if !goes_on(rt, alloc, link, shared, next) {
            return;
        }
    }
}
