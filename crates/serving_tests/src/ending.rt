//! How a server ends that still has a job.
ghost use Rattle.std.specs.Prelude.{IfOk, length, ◌≡◌};

use crate::answers::{JOB, JOB_SUBMITTED};
use crate::door::{Door, HeardLink};
use crate::slow::SlowSource;
use crate::stage::{Stage, served, supply};
use base::Trace;
use command_status::Status;
use server_command::ServerEnd;
use server_workers::SOURCES;
use source_render::Numbered;
use std::alloc::Global;
use std::sync::atomic::{AtomicU64, Ordering};
use std::sync::{Mutex, Wait};
use std::test::Fail;
use std::thread::Threads;
use std::time::Clock;

/// How many places the job has.
const PLACES: u64 = 4;

/// The sources that a server takes, all of them slow.
fn slow_sources<'a, R: Clock>(
    rt: &'a R,
    alloc: Global,
    renders: &'a AtomicU64,
) -> Result<Vec<SlowSource<'a, R>>, Fail>
    ensures { IfOk result (λ sources. length sources.items ≡ SOURCES) }
{
    let mut sources = Vec::new(alloc);
    for _ in 0..SOURCES {
        sources.push(SlowSource {
            rt,
            renders,
            numbered: Numbered::new(0),
        })?;
    }
    Ok(sources)
}

/// Serves one connection, which submits a job, and nothing else.
fn serve_job<R: Threads + Wait + Clock + Sync>(
    rt: &R,
    alloc: Global,
    heard: &Mutex<Vec<u8>>,
    renders: &AtomicU64,
) -> Result<ServerEnd, Fail> {
    let link = HeardLink {
        rt,
        source: supply(alloc, JOB)?,
        heard,
    };
    let mut door = Door {
        links: vec![in alloc; link]?,
        given: Trace::new(),
        faults: 0,
        closed: false,
    };
    let sources = slow_sources(rt, alloc, renders)?;
    Ok(served(rt, alloc, 1, Stage::new(alloc)?, &mut door, sources))
}

#[test]
fn a_job_is_cancelled_when_the_last_connection_was_served(rt: HostRuntime) -> Result<(), Fail> {
    let alloc = rt.alloc();
    let heard = Mutex::new(Vec::new(alloc));
    let renders = AtomicU64::new(0);
    let end = serve_job(&rt, alloc, &heard, &renders)?;
    assert!(rt; end == ServerEnd::Ended(Status::Done));
    assert!(rt; heard.lock(&rt).as_slice() == JOB_SUBMITTED);
    assert!(rt; renders.load(Ordering::SeqCst) < PLACES);
    Ok(())
}
