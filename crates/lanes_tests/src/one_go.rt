//! More messages in one go than a lane serves.
use crate::client::Client;
use crate::server;
use crate::session::FIRST;
use std::alloc::{AllocError, Global};
use std::fs::{File, Files};
use std::io::Read;
use std::net::{Net, TcpStream};
use std::str::from_utf8;
use std::test::Fail;
use std::thread;
use std::time::{Clock, Duration};

/// The number behind the last message that is sent: they are 10,001.
const END: u64 = FIRST + 10_001;

/// How many pages of 4,096 bytes the process may grow by, where all answers are ten times as long. Under `rt try` it grows by more, since
/// nothing that is freed is used again there.
const GROWTH: u64 = 1_000;

/// All messages. The answer of each has a page and the number of its message.
fn pile(alloc: Global) -> Result<Vec<u8>, AllocError> {
    let mut pile = Vec::new(alloc);
    for number in FIRST..END {
        let message = format!(in alloc;
            "POST /page HTTP/1.1\r\nContent-Length: 5\r\n\r\n{number}"
        )?;
        pile.extend_from_slice(message.as_bytes())?;
    }
    Ok(pile)
}

/// How many pages of memory this process has; 0 where the system doesn't tell it.
fn memory<R: Files<File = File>>(rt: &R) -> u64 {
    let Ok(mut file) = File::open(rt, "/proc/self/statm") else {
        return 0;
    };
    let mut bytes = [0; 64];
    let Ok(count) = file.read(&mut bytes) else {
        return 0;
    };
    let Ok(text) = from_utf8(&bytes[..count.min(64)]) else {
        return 0;
    };
    match text.split(' ').nth(1) {
        Some(pages) => pages.parse::<u64>().unwrap_or(0),
        None => 0,
    }
}

/// Whether the answers of these messages come next, in their order.
fn hears_in_order(alloc: Global, client: &mut Client, end: u64) -> bool {
    for number in FIRST..end {
        let Ok(text) = format!(in alloc; "{number}") else {
            return false;
        };
        if !client.hears_page(text.as_bytes()) {
            return false;
        }
    }
    true
}

/// Whether the process grows little while a client has sent all messages and takes no answer.
fn grows_little<R: Files<File = File> + Clock>(rt: &R, busy: &mut Client, pile: &[u8]) -> bool {
    let before = memory(rt);
    let sent = busy.sends(pile);
    thread::sleep(rt, Duration::from_millis(300));
    sent && before > 0 && memory(rt).saturating_sub(before) < GROWTH
}

/// Whether a client that sends all messages in one go is answered in order 9,999 times, since another one was answered once while it took
/// nothing.
fn is_answered_in_order<R: Net<Stream = TcpStream> + Files<File = File> + Clock>(
    rt: &R,
    alloc: Global,
    port: u16,
    pile: &[u8],
) -> bool {
    let Ok(mut busy) = Client::new(rt, port) else {
        return false;
    };
    let Ok(mut other) = Client::new(rt, port) else {
        return false;
    };
    grows_little(rt, &mut busy, pile)
        && other.is_served()
        && hears_in_order(alloc, &mut busy, FIRST + 9_999)
        && !busy.hears(b"H")
}

#[test]
fn ten_thousand_and_one_in_one_go_are_answered_in_order(rt: HostRuntime) -> Result<(), Fail> {
    let pile = pile(rt.alloc())?;
    let server = server::start(rt, rt.alloc(), 1)?;
    let good = is_answered_in_order(&rt, rt.alloc(), server.port, pile.as_slice());
    server.wait(&rt);
    assert!(rt; good);
    Ok(())
}
