//! Clients for which a server waits, and which it lets go when their time is over.
use crate::client::{Client, pause, time};
use crate::server;
use crate::server::Server;
use std::net::{Net, TcpStream};
use std::sync::Wait;
use std::test::Fail;
use std::thread::Threads;
use std::time::Clock;
use tcp_lanes::Limits;

/// A limit in milliseconds for a client that does nothing meanwhile.
const SHORT: u64 = 300;

/// A limit for one that is at work meanwhile.
const MIDDLE: u64 = 1000;

/// A limit that no test reaches.
const AMPLE: u64 = 60_000;

/// How long connections may rest, messages take, and answers wait, of three clients at a time.
fn within(rest: u64, message: u64, answer: u64) -> Limits {
    Limits {
        rest,
        message,
        answer,
        sweep: 50,
        connections: 3,
    }
}

/// Whether the limit is over since then. The server reads its clock in whole milliseconds.
fn is_over<R: Clock>(rt: &R, limit: u64, since: u64) -> bool {
    time(rt).saturating_sub(since).saturating_add(1) >= limit
}

/// Whether clients that rest are closed, one that has sent nothing and one that was served, the first not before its time. A newcomer
/// is served then, for which there was no room, and one whose message isn't whole yet stays.
fn are_closed_that_rest<R: Net<Stream = TcpStream> + Clock>(rt: &R, port: u16) -> bool {
    let begun = time(rt);
    let Ok(mut silent) = Client::new(rt, port) else {
        return false;
    };
    let Ok(mut served) = Client::new(rt, port) else {
        return false;
    };
    let Ok(mut slow) = Client::new(rt, port) else {
        return false;
    };
    let Ok(mut late) = Client::new(rt, port) else {
        return false;
    };
    served.is_served()
        && slow.sends(b"GET / HTTP/1.1\r\nConnection: close\r\n")
        && late.is_served_last()
        && is_over(rt, MIDDLE, begun)
        && silent.is_closed()
        && served.is_closed()
        && slow.sends(b"\r\n")
        && slow.hears_status(b"200")
}

#[test]
fn one_that_rests_too_long_is_closed(rt: HostRuntime) -> Result<(), Fail> {
    let server = server::start_within(rt, rt.alloc(), 2, within(MIDDLE, AMPLE, AMPLE))?;
    let good = are_closed_that_rest(&rt, server.port);
    server.wait(&rt);
    assert!(rt; good);
    Ok(())
}

/// Whether one whose message isn't whole in time is let go, though it sends on, and not before its time. One that rests stays.
fn is_let_go_that_sends_slowly<R: Net<Stream = TcpStream> + Clock>(rt: &R, port: u16) -> bool {
    let begun = time(rt);
    let Ok(mut silent) = Client::new(rt, port) else {
        return false;
    };
    let Ok(mut slow) = Client::new(rt, port) else {
        return false;
    };
    slow.sends(b"GET /")
        && slow.is_let_go(rt)
        && is_over(rt, SHORT, begun)
        && silent.is_served_last()
}

#[test]
fn one_that_sends_too_slowly_is_let_go(rt: HostRuntime) -> Result<(), Fail> {
    let server = server::start_within(rt, rt.alloc(), 1, within(AMPLE, SHORT, AMPLE))?;
    let good = is_let_go_that_sends_slowly(&rt, server.port);
    server.wait(&rt);
    assert!(rt; good);
    Ok(())
}

/// Whether one stays that sends its messages in two parts, each part in time, for longer than all limits.
fn stays_that_goes_on<R: Net<Stream = TcpStream> + Clock>(rt: &R, port: u16) -> bool {
    let begun = time(rt);
    let Ok(mut client) = Client::new(rt, port) else {
        return false;
    };
    for _ in 0..1000 {
        if time(rt).saturating_sub(begun) > 1500 {
            return client.is_served_last();
        }
        let begun = client.sends(b"GET / HTTP/1.1\r\n");
        pause(rt);
        if !begun || !client.sends(b"\r\n") || !client.hears_status(b"200") {
            return false;
        }
    }
    client.is_served_last()
}

#[test]
fn one_that_goes_on_stays(rt: HostRuntime) -> Result<(), Fail> {
    let server = server::start_within(rt, rt.alloc(), 1, within(MIDDLE, MIDDLE, MIDDLE))?;
    let good = stays_that_goes_on(&rt, server.port);
    server.wait(&rt);
    assert!(rt; good);
    Ok(())
}

/// Whether one hears all of an answer that takes it slowly, for longer than one may wait.
fn hears_all_that_takes_slowly<R: Net<Stream = TcpStream> + Clock>(rt: &R, port: u16) -> bool {
    let Ok(mut client) = Client::new(rt, port) else {
        return false;
    };
    client.sends(b"GET /vast HTTP/1.1\r\n\r\n")
        && client.hears_vast_slowly(rt)
        && client.is_served_last()
}

#[test]
fn one_that_takes_its_answer_slowly_hears_it_all(rt: HostRuntime) -> Result<(), Fail> {
    let server = server::start_within(rt, rt.alloc(), 1, within(AMPLE, AMPLE, MIDDLE))?;
    let good = hears_all_that_takes_slowly(&rt, server.port);
    server.wait(&rt);
    assert!(rt; good);
    Ok(())
}

/// Whether one that takes nothing of its answer is let go, though it sends on, and not before its time. One that rests stays.
fn is_let_go_that_takes_nothing<R: Net<Stream = TcpStream> + Clock>(rt: &R, port: u16) -> bool {
    let begun = time(rt);
    let Ok(mut silent) = Client::new(rt, port) else {
        return false;
    };
    let Ok(mut deaf) = Client::new(rt, port) else {
        return false;
    };
    deaf.sends(b"GET /vast HTTP/1.1\r\n\r\n")
        && deaf.is_let_go(rt)
        && is_over(rt, SHORT, begun)
        && silent.is_served_last()
}

#[test]
fn one_that_takes_nothing_of_its_answer_is_let_go(rt: HostRuntime) -> Result<(), Fail> {
    let server = server::start_within(rt, rt.alloc(), 1, within(AMPLE, AMPLE, SHORT))?;
    let good = is_let_go_that_takes_nothing(&rt, server.port);
    server.wait(&rt);
    assert!(rt; good);
    Ok(())
}

/// Whether one that heard its last answer and doesn't close is let go, though it sends on, and not before its time.
fn is_let_go_that_stays<R: Net<Stream = TcpStream> + Clock>(rt: &R, port: u16) -> bool {
    let begun = time(rt);
    let Ok(mut silent) = Client::new(rt, port) else {
        return false;
    };
    let Ok(mut staying) = Client::new(rt, port) else {
        return false;
    };
    staying.is_served_last()
        && staying.is_let_go(rt)
        && is_over(rt, SHORT, begun)
        && silent.is_served_last()
}

#[test]
fn one_that_stays_behind_its_last_answer_is_let_go(rt: HostRuntime) -> Result<(), Fail> {
    let server = server::start_within(rt, rt.alloc(), 2, within(AMPLE, AMPLE, SHORT))?;
    let good = is_let_go_that_stays(&rt, server.port);
    server.wait(&rt);
    assert!(rt; good);
    Ok(())
}

/// Whether a server ends although nobody takes its last answer, and not before the time for one.
fn is_given_up<R: Net<Stream = TcpStream> + Threads + Wait + Clock + Copy + Drop>(
    rt: &R,
    server: Server<R>,
) -> bool {
    let begun = time(rt);
    let Ok(mut deaf) = Client::new(rt, server.port) else {
        return false;
    };
    let asked = deaf.sends(b"GET /vast HTTP/1.1\r\nConnection: close\r\n\r\n");
    server.wait(rt);
    asked && is_over(rt, SHORT, begun)
}

#[test]
fn a_last_answer_that_nobody_takes_is_given_up(rt: HostRuntime) -> Result<(), Fail> {
    let server = server::start_within(rt, rt.alloc(), 1, within(AMPLE, AMPLE, SHORT))?;
    let good = is_given_up(&rt, server);
    assert!(rt; good);
    Ok(())
}
