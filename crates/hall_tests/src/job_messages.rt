//! Messages for jobs, over one connection in memory.
ghost use Rattle.std.specs.Prelude.{◌≡◌, []};
ghost use Rattle.hall_tests.specs.Fit.{IsFit};
ghost use Rattle.job_board.specs.Calls.{IsBoardPass};

use crate::pair::{Pair, new_pair};
use crate::visit::{Visit, held, visit_of};
use cabinet::Keeper;
use http_wire::{MemoryLink, MemorySink, MemorySource};
use sessions::SessionEnd;
use source_render::Scripted;
use std::alloc::{AllocError, Global};
use std::sync::Wait;
use std::test::Fail;

/// A job is submitted, looked at and cancelled, and told in full with all jobs and by itself; then some is asked of one that isn't there.
const MESSAGES: &[u8] = b"POST /jobs HTTP/1.1\r\nContent-Length: 71\r\n\r\n\
    {\"layer\":\"demo\",\"grid\":\"tiny\",\"zoomStart\":0,\"zoomStop\":1,\"type\":\"seed\"}\
    GET /jobs/1 HTTP/1.1\r\n\r\n\
    DELETE /jobs/1 HTTP/1.1\r\n\r\n\
    GET /board HTTP/1.1\r\n\r\n\
    GET /board/1 HTTP/1.1\r\n\r\n\
    DELETE /board/1 HTTP/1.1\r\n\r\n\
    GET /board/2 HTTP/1.1\r\n\r\n\
    GET /jobs/9 HTTP/1.1\r\n\r\n";

/// The job has a place for each of the five tiles at zooms 0 and 1, and nobody runs it.
const RESPONSES: &[u8] =
    b"HTTP/1.1 200 OK\r\nContent-Type: application/json\r\nContent-Length: 10\r\n\r\n\
    {\"job\":1}\n\
    HTTP/1.1 200 OK\r\nContent-Type: application/json\r\nContent-Length: 71\r\n\r\n\
    {\"job\":1,\"places\":5,\"claimed\":0,\"done\":0,\"failed\":0,\"cancelled\":false}\n\
    HTTP/1.1 200 OK\r\nContent-Type: application/json\r\nContent-Length: 70\r\n\r\n\
    {\"job\":1,\"places\":5,\"claimed\":0,\"done\":0,\"failed\":0,\"cancelled\":true}\n\
    HTTP/1.1 200 OK\r\nContent-Type: application/json\r\nContent-Length: 113\r\n\r\n\
    {\"job\":1,\"type\":\"seed\",\"state\":\"waiting\",\"places\":5,\"claimed\":0,\"done\":0,\"failed\":0,\"unkept\":0,\"cancelled\":true}\n\
    HTTP/1.1 200 OK\r\nContent-Type: application/json\r\nContent-Length: 113\r\n\r\n\
    {\"job\":1,\"type\":\"seed\",\"state\":\"waiting\",\"places\":5,\"claimed\":0,\"done\":0,\"failed\":0,\"unkept\":0,\"cancelled\":true}\n\
    HTTP/1.1 405 Method Not Allowed\r\nContent-Length: 0\r\n\r\n\
    HTTP/1.1 404 Not Found\r\nContent-Length: 0\r\n\r\n\
    HTTP/1.1 404 Not Found\r\nContent-Length: 0\r\n\r\n";

/// Holds a session over these messages, and tells its end and what was written.
fn session<R: Wait, K: Keeper>(
    rt: &R,
    alloc: Global,
    visit: &mut Visit<K>,
) -> Result<(SessionEnd, Vec<u8>), AllocError>
    requires fit { IsFit visit.old.world.hall.turnstile visit.old.world.hall.catalogue visit.old.a }
    requires board { IsBoardPass visit.old.world.board.turnstile.table visit.old.board }
    requires no_recipes { visit.old.world.recipes.recipes.items ≡ [] }
{
    let link = MemoryLink::new(
        MemorySource::new(Vec::from_slice(alloc, MESSAGES)?, 4096, Vec::new(alloc)),
        MemorySink::new(alloc, Vec::new(alloc)),
    );
    let mut source = Scripted::new(0, Vec::new(alloc));
    let Visit {
        world,
        a,
        board,
        ..
    } = visit;
    held(rt, alloc, world, a, board, &mut source, link)
}

/// The same over a hall of these passes.
fn session_at<R: Wait, K: Keeper>(
    rt: &R,
    alloc: Global,
    pair: Pair<K>,
) -> Result<Option<(SessionEnd, Vec<u8>)>, AllocError>
    requires a { IsFit pair.hall.turnstile pair.hall.catalogue pair.a }
    requires b { IsFit pair.hall.turnstile pair.hall.catalogue pair.b }
{
    let Some(mut visit) = visit_of(alloc, pair)? else {
        return Ok(None);
    };
    let came = session(rt, alloc, &mut visit);
    drop(visit);
    Ok(Some(came?))
}

#[test]
fn a_job_is_submitted_looked_at_and_cancelled(rt: HostRuntime) -> Result<(), Fail> {
    let alloc = rt.alloc();
    let Some(pair) = new_pair(alloc)? else {
        return Err(Fail::from("no passes"));
    };
    let Some((end, output)) = session_at(&rt, alloc, pair)? else {
        return Err(Fail::from("no board"));
    };
    assert!(rt; end == SessionEnd::Closed);
    assert!(rt; output.as_slice() == RESPONSES);
    Ok(())
}
