//! How a server ends.
use crate::client::{Client, pause};
use crate::server;
use crate::server::{AMPLE, MANY, limits};
use std::net::{Net, TcpStream};
use std::test::Fail;
use std::thread;
use std::time::{Clock, Duration};

#[test]
fn a_server_is_stopped_in_its_sleep(rt: HostRuntime) -> Result<(), Fail> {
    let mut server = server::start(rt, rt.alloc(), MANY, limits(AMPLE))?;
    let port = server.port;
    thread::sleep(&rt, Duration::from_millis(50));
    server.shared.switch.stop(&rt);
    let is_free = Client::new(&rt, port).is_err();
    server.wait(&rt);
    server.end(&rt);
    assert!(rt; is_free);
    Ok(())
}

/// Whether one that rests is closed where another one stops the server, who is answered, and nobody connects then.
fn stops<R: Net<Stream = TcpStream>>(rt: &R, port: u16) -> bool {
    let Ok(mut resting) = Client::new(rt, port) else {
        return false;
    };
    let Ok(mut stopping) = Client::new(rt, port) else {
        return false;
    };
    resting.is_served()
        && stopping.sends(b"POST /stop HTTP/1.1\r\nContent-Length: 0\r\n\r\n")
        && stopping.hears_status(b"200")
        && stopping.is_closed()
        && resting.is_closed()
        && Client::new(rt, port).is_err()
}

#[test]
fn a_message_stops_the_server(rt: HostRuntime) -> Result<(), Fail> {
    let mut server = server::start(rt, rt.alloc(), MANY, limits(AMPLE))?;
    let good = stops(&rt, server.port);
    server.wait(&rt);
    assert!(rt; good);
    Ok(())
}

/// Whether a client is served to its end.
fn comes_and_goes<R: Net<Stream = TcpStream>>(rt: &R, port: u16) -> bool {
    let Ok(mut client) = Client::new(rt, port) else {
        return false;
    };
    client.is_served() && client.is_served_last()
}

/// Whether five clients are served to their ends beside one that rests, which is closed with the last of them.
fn are_counted<R: Net<Stream = TcpStream>>(rt: &R, port: u16) -> bool {
    let Ok(mut resting) = Client::new(rt, port) else {
        return false;
    };
    for _ in 0..5 {
        if !resting.is_served() || !comes_and_goes(rt, port) {
            return false;
        }
    }
    resting.is_closed() && Client::new(rt, port).is_err()
}

// There are more workers than links, and each link that ends may leave a set that nobody takes.
#[test]
fn a_server_ends_with_its_last_link(rt: HostRuntime) -> Result<(), Fail> {
    let mut server = server::start(rt, rt.alloc(), 5, limits(AMPLE))?;
    let good = are_counted(&rt, server.port);
    server.wait(&rt);
    assert!(rt; good);
    Ok(())
}

/// Asks for a vast answer and for a further one, on a connection that is to go on.
fn asks_twice<R: Net<Stream = TcpStream> + Clock>(rt: &R, client: &mut Client) -> bool {
    let asks = client.sends(b"GET /vast HTTP/1.1\r\n\r\n");
    pause(rt);
    asks && client.sends(b"GET / HTTP/1.1\r\n\r\n")
}

/// Whether a client whose answer is half sent when another one ends the server by this message hears it whole, and nothing of a message
/// behind it.
fn is_seen_off<R: Net<Stream = TcpStream> + Clock>(rt: &R, port: u16, last: &[u8]) -> bool {
    let Ok(mut half) = Client::new(rt, port) else {
        return false;
    };
    let Ok(mut ending) = Client::new(rt, port) else {
        return false;
    };
    asks_twice(rt, &mut half)
        && ending.is_served()
        && ending.sends(last)
        && ending.hears_status(b"200")
        && ending.is_closed()
        && half.hears_vast_slowly(rt)
        && half.is_closed()
}

#[test]
fn an_answer_under_way_is_sent_whole_behind_a_stop(rt: HostRuntime) -> Result<(), Fail> {
    let mut server = server::start(rt, rt.alloc(), MANY, limits(AMPLE))?;
    let good = is_seen_off(&rt, server.port, b"GET /stop HTTP/1.1\r\n\r\n");
    server.wait(&rt);
    assert!(rt; good);
    Ok(())
}

#[test]
fn an_answer_under_way_is_sent_whole_behind_the_last_link(rt: HostRuntime) -> Result<(), Fail> {
    let mut server = server::start(rt, rt.alloc(), 1, limits(AMPLE))?;
    let good = is_seen_off(
        &rt,
        server.port,
        b"GET / HTTP/1.1\r\nConnection: close\r\n\r\n",
    );
    server.wait(&rt);
    assert!(rt; good);
    Ok(())
}
