//! server_meters: what several threads count adds up
use exact_ratio::Words;
use server_meters::{MeteredFault, Meters, Outcome, WorkerMeters};
use std::alloc::{AllocError, Global};
use std::test::Fail;
use std::thread::{Threads, join};

/// How often each thread counts.
const TIMES: u64 = 1_000;

/// Counts requests, renders, syncs, turns and faults.
fn work(worker: Option<&WorkerMeters>) {
    let Some(worker) = worker else {
        return;
    };
    for _ in 0..TIMES {
        worker.open_connection();
        worker.count_request(Some(0), Outcome::Hit);
        worker.count_request(Some(70), Outcome::Refusal);
        worker.begin_render();
        worker.begin_render();
        worker.end_render(2_000);
        worker.count_sync(40_000_000);
        worker.count_turn();
        worker.count_fault(MeteredFault::Source);
        worker.count_request(None, Outcome::Fault);
    }
}

/// Four threads count, two of them at one worker.
fn counted<R: Threads + Sync>(rt: &R, alloc: Global) -> Result<Meters, AllocError> {
    let mut layers = Vec::new(alloc);
    layers.push(Words::new(alloc, b"roads")?)?;
    let meters = Meters::new(alloc, 3, layers.as_slice())?;
    let shared = &meters;
    join(
        rt,
        || {
            join(rt, || work(shared.worker(0)), || work(shared.worker(1)));
        },
        || {
            join(rt, || work(shared.worker(2)), || work(shared.worker(2)));
        },
    );
    Ok(meters)
}

#[test]
fn what_threads_count_adds_up(rt: HostRuntime) -> Result<(), Fail> {
    let meters = counted(&rt, rt.alloc())?;
    let tally = meters.tally();
    assert!(rt; tally.turns == 4_000);
    assert!(rt; tally.source == 4_000);
    assert!(rt; tally.renders_under_way() == 4_000);
    assert!(rt; tally.open_connections() == 4_000);
    assert!(rt; tally.renders.micros == 8_000_000);
    assert!(rt; tally.syncs.count() == 4_000);
    let requests = meters.requests_of(0);
    assert!(rt; requests.hits == 4_000);
    let others = meters.other_requests();
    assert!(rt; others.refusals == 4_000);
    assert!(rt; others.faults == 4_000);
    Ok(())
}
