//! Members of a crew that rest while requests are served.
use crate::moments::Moments;
use base::Traffic;
use seed_jobs::{Gate, Pace, PacedGate};

/// When the first and the second place of a member are let through, in microseconds, each of which is come to after work of 100 ms: the
/// first while nobody asks, the second after so many requests, of which so many were served.
fn let_through(begun: u64, served: u64) -> (u64, u64) {
    let moments = Moments::new();
    let traffic = Traffic::new();
    let pace = Pace::new();
    let mut gate = PacedGate::new(&moments, &traffic, &pace);
    moments.work(100_000);
    gate.at(0);
    let first = moments.micros();
    moments.work(100_000);
    for _ in 0..begun {
        traffic.begin();
    }
    for _ in 0..served {
        traffic.end();
    }
    gate.at(1);
    (first, moments.micros())
}

#[test]
fn nobody_rests_where_nobody_asks(rt: HostRuntime) {
    assert!(rt; let_through(0, 0) == (100_000, 200_000));
}

#[test]
fn a_member_rests_while_a_request_is_served(rt: HostRuntime) {
    assert!(rt; let_through(1, 0) == (100_000, 450_000));
}

#[test]
fn a_rest_ends_where_no_more_requests_come(rt: HostRuntime) {
    assert!(rt; let_through(3, 3) == (100_000, 205_000));
}
