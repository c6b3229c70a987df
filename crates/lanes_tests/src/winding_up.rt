//! How a server ends that serves no further link.
use crate::client::{Client, pause};
use crate::server;
use std::net::{Net, TcpStream};
use std::test::Fail;
use std::thread;
use std::time::{Clock, Duration};
use tcp_lanes::Limits;

/// Whether a client is served to its end.
fn comes_and_goes<R: Net<Stream = TcpStream>>(rt: &R, port: u16) -> bool {
    let Ok(mut client) = Client::new(rt, port) else {
        return false;
    };
    client.is_served_last()
}

// What has the socket lives on, as where jobs still run.
#[test]
fn nobody_connects_once_the_last_lane_has_ended(rt: HostRuntime) -> Result<(), Fail> {
    let server = server::start(rt, rt.alloc(), 2)?;
    let port = server.port;
    let good = comes_and_goes(&rt, port) && comes_and_goes(&rt, port);
    let opened = server.wait_for_workers(&rt);
    assert!(rt; good && Client::new(&rt, port).is_err());
    drop(opened);
    Ok(())
}

/// Asks for a vast answer and for a further one, on a connection that is to go on.
fn asks_twice<R: Net<Stream = TcpStream> + Clock>(rt: &R, client: &mut Client) -> bool {
    let asks = client.sends(b"GET /vast HTTP/1.1\r\n\r\n");
    pause(rt);
    asks && client.sends(b"GET / HTTP/1.1\r\n\r\n")
}

/// Whether a client whose answer is half sent when the last lane ends hears it whole, and nothing of a message behind it, and one that
/// rests then is closed.
fn are_seen_off<R: Net<Stream = TcpStream> + Clock>(rt: &R, port: u16) -> bool {
    let Ok(mut half) = Client::new(rt, port) else {
        return false;
    };
    let Ok(mut resting) = Client::new(rt, port) else {
        return false;
    };
    let begun = asks_twice(rt, &mut half) && resting.is_served();
    begun
        && comes_and_goes(rt, port)
        && resting.is_closed()
        && half.hears_vast_slowly(rt)
        && half.is_closed()
}

#[test]
fn an_answer_under_way_is_sent_whole_at_the_end(rt: HostRuntime) -> Result<(), Fail> {
    let limits = Limits {
        rest: 60_000,
        message: 60_000,
        answer: 60_000,
        sweep: 1000,
        connections: 8,
    };
    let server = server::start_within(rt, rt.alloc(), 1, limits)?;
    let good = are_seen_off(&rt, server.port);
    server.wait(&rt);
    assert!(rt; good);
    Ok(())
}

/// Whether a client that comes while two lanes are left is served, though another one rests.
fn are_served_to_the_last<R: Net<Stream = TcpStream> + Clock>(rt: &R, port: u16) -> bool {
    let Ok(mut resting) = Client::new(rt, port) else {
        return false;
    };
    let begun = resting.is_served();
    thread::sleep(rt, Duration::from_millis(50));
    begun && comes_and_goes(rt, port) && resting.is_served() && comes_and_goes(rt, port)
}

#[test]
fn who_comes_before_the_last_lane_has_ended_is_served(rt: HostRuntime) -> Result<(), Fail> {
    let server = server::start(rt, rt.alloc(), 2)?;
    let good = are_served_to_the_last(&rt, server.port);
    server.wait(&rt);
    assert!(rt; good);
    Ok(())
}
