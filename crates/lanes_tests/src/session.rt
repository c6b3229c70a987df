//! A session over a link, which answers each message by its target.
use http_wire::{Link, Message, MessageReader, Next, send_both};
use std::alloc::{AllocError, Global};
use std::thread;
use std::time::{Clock, Duration};

/// How many bytes a long answer has: more than a socket takes at once.
pub const LONG: usize = 1_000_000;

/// How many bytes a vast answer has: more than the sockets of both sides ever take while its client doesn't read.
pub const VAST: usize = 16_000_000;

/// How many bytes a page has.
pub const PAGE: usize = 4_000;

/// The number of the first message of a session, so that each number has five digits.
pub const FIRST: u64 = 10_000;

/// The byte of which a long answer is made.
pub const BYTE: u8 = b'l';

fn head_of(alloc: Global, status: u16, size: usize) -> Result<String, AllocError> {
    format!(in alloc; "HTTP/1.1 {status} X\r\nContent-Length: {size}\r\n\r\n")
}

fn send_answer<L: Link>(alloc: Global, link: &mut L, status: u16, body: &[u8]) -> bool {
    let Ok(head) = head_of(alloc, status, body.len()) else {
        return false;
    };
    send_both(link, head.as_bytes(), body).is_ok()
}

fn send_bytes<L: Link>(alloc: Global, link: &mut L, size: usize) -> bool {
    let Ok(body) = Vec::from_elem(alloc, BYTE, size) else {
        return false;
    };
    send_answer(alloc, link, 200, body.as_slice())
}

/// Sends a page, and these bytes behind it.
fn send_page<L: Link>(alloc: Global, link: &mut L, message: &[u8]) -> bool {
    let Ok(mut body) = Vec::from_elem(alloc, BYTE, PAGE) else {
        return false;
    };
    body.extend_from_slice(message).is_ok() && send_answer(alloc, link, 200, body.as_slice())
}

/// Sends the number of a message in its session, after a millisecond of work.
fn send_turn<R: Clock, L: Link>(rt: &R, alloc: Global, link: &mut L, turn: u64) -> bool {
    thread::sleep(rt, Duration::from_millis(1));
    let Ok(number) = format!(in alloc; "{turn}") else {
        return false;
    };
    send_answer(alloc, link, 200, number.as_bytes())
}

/// Answers a message: bytes at `/long` and more at `/vast`, its number at `/turn`, and the message's own body elsewhere, behind a page
/// at `/page`.
fn answer<R: Clock, L: Link>(
    rt: &R,
    alloc: Global,
    link: &mut L,
    message: &Message,
    turn: u64,
) -> bool {
    let target = message.target.bytes();
    if target == b"/long".as_slice() {
        return send_bytes(alloc, link, LONG);
    }
    if target == b"/vast".as_slice() {
        return send_bytes(alloc, link, VAST);
    }
    if target == b"/page".as_slice() {
        return send_page(alloc, link, message.body.bytes());
    }
    if target == b"/turn".as_slice() {
        return send_turn(rt, alloc, link, turn);
    }
    send_answer(alloc, link, 200, message.body.bytes())
}

/// Whether the session goes on behind what stands next.
fn goes_on<R: Clock, L: Link>(rt: &R, alloc: Global, link: &mut L, next: Next, turn: u64) -> bool {
    match next {
        Next::Message(message) => answer(rt, alloc, link, &message, turn) && !message.last,
        Next::Bad(status) => {
            send_answer(alloc, link, status, b"");
            false
        }
        _ => false,
    }
}

/// Serves the messages of a link to its end.
pub fn serve<R: Clock, L: Link>(rt: &R, alloc: Global, link: &mut L) {
    let Ok(mut reader) = MessageReader::new(alloc) else {
        return;
    };
    for turn in FIRST..FIRST + 10_000 {
        let Ok(next) = reader.next(alloc, link) else {
            return;
        };
        if !goes_on(rt, alloc, link, next, turn) {
            return;
        }
    }
}
