//! Connections that wait for their clients, and for one another.
use crate::client::{Client, time};
use crate::server;
use crate::server::{AMPLE, MANY, limits};
use std::net::{Net, TcpStream};
use std::test::Fail;
use std::time::Clock;
use tcp_lanes::Limits;
use tcp_sets::SetLimits;

/// A limit in milliseconds for clients that do nothing meanwhile.
const SHORT: u64 = 300;

/// Whether one that has sent nothing and one that was served are closed, and not before their time.
fn are_closed_that_rest<R: Net<Stream = TcpStream> + Clock>(rt: &R, port: u16) -> bool {
    let begun = time(rt);
    let Ok(mut silent) = Client::new(rt, port) else {
        return false;
    };
    let Ok(mut served) = Client::new(rt, port) else {
        return false;
    };
    let closed = served.is_served() && silent.is_closed() && served.is_closed();
    closed && time(rt).saturating_sub(begun).saturating_add(1) >= SHORT
}

#[test]
fn one_that_rests_too_long_is_closed(rt: HostRuntime) -> Result<(), Fail> {
    let server = server::start(rt, rt.alloc(), MANY, limits(SHORT))?;
    let good = are_closed_that_rest(&rt, server.port);
    server.end(&rt);
    assert!(rt; good);
    Ok(())
}

/// Two connections at a time.
fn narrow() -> SetLimits {
    let wide = limits(AMPLE);
    SetLimits {
        clients: Limits {
            connections: 2,
            ..wide.clients
        },
        ..wide
    }
}

/// Whether one more than may be connected waits until another one ends, and is served then.
fn one_more_waits<R: Net<Stream = TcpStream>>(rt: &R, port: u16) -> bool {
    let Ok(mut one) = Client::new(rt, port) else {
        return false;
    };
    let Ok(mut two) = Client::new(rt, port) else {
        return false;
    };
    let Ok(mut late) = Client::new(rt, port) else {
        return false;
    };
    let waits = one.is_served()
        && two.is_served()
        && late.sends(b"GET / HTTP/1.1\r\n\r\n")
        && late.hears_nothing();
    drop(one);
    waits && late.hears_status(b"200") && two.is_served()
}

#[test]
fn one_more_than_may_be_connected_waits(rt: HostRuntime) -> Result<(), Fail> {
    let server = server::start(rt, rt.alloc(), MANY, narrow())?;
    let good = one_more_waits(&rt, server.port);
    server.end(&rt);
    assert!(rt; good);
    Ok(())
}
