//! How the answer of a line is written: its response after a line of its own.
ghost use Rattle.std.specs.Io.KnownBytes.{Appends};
ghost use Rattle.std.specs.Prelude.{◌≡◌, ◌≤◌, ◌++◌, false, IfOk, OnErr, OnOk};
ghost use Rattle.arrayvec.specs.ArrayVec.{array_vec_len};
ghost use Rattle.base.specs.Causes.{HasCause};
ghost use Rattle.sessions.specs.Responses.{MayTell};
ghost use Rattle.tile_requests.specs.Response.{answer_line, framed, response_text, response_with};
ghost use Rattle.tile_requests.specs.Sent.{AppendsFront};
ghost use Rattle.tile_requests.specs.Shown.{shown_parts};
ghost use Rattle.tile_service.specs.CacheTally.{result_of};

use crate::action_end::LineAnswer;
use crate::cache_tally::{CacheResult, result_of};
use arrayvec::ArrayVec;
use http_wire::{ByteSink, Sent};
use png_text::CrcTables;
use std::alloc::Global;
use tile_requests::{LentResponse, add, add_number, bare, head, parts_of, send_behind};

/// The line that stands before a response. It takes no memory.
fn answer_line(line: u64, actor: u32, start: u64, bytes: u64) -> ArrayVec<u8, 1024>
    ensures items { result.items ≡ answer_line line actor start bytes }
    ensures short { array_vec_len result ≤ 100 }
{
    let mut text = ArrayVec::new();
    add(&mut text, b"answer ");
    add_number(&mut text, line);
    add(&mut text, b" ");
    add_number(&mut text, u64::from(actor));
    add(&mut text, b" ");
    add_number(&mut text, start);
    add(&mut text, b" ");
    add_number(&mut text, bytes);
    add(&mut text, b"\n");
    text
}

/// Sends the response of an answer, after its line.
fn send_answer<O: ByteSink>(
    output: &mut O,
    line: u64,
    actor: u32,
    start: u64,
    parts: &LentResponse<'_>,
) -> Result<(), Sent>
    ensures ok { OnOk result (Appends (O.taken output.old) (O.taken output.new) (framed line actor start (response_text false (shown_parts parts.now)))) }
    ensures err { OnErr result (AppendsFront (O.taken output.old) (O.taken output.new) (framed line actor start (response_text false (shown_parts parts.now)))) }
    ensures cause { HasCause (O.faults output.old) (O.faults output.new) result }
{
    let body = parts.body.bytes();
    let head = head(false, parts);
    let bytes = head.len() as u64 + body.len() as u64;
    let mut front = answer_line(line, actor, start, bytes);
    add(&mut front, head.as_slice());
    send_behind(output, front, body)
}

/// Writes an answer in line `line`, and closes no connection; `document` is the capabilities document. Where memory runs
/// out, the answer says so. Gives what the answer tells of the cache. `Sent` where a write failed.
pub fn write_answer<O: ByteSink>(
    alloc: Global,
    tables: &CrcTables,
    document: &[u8],
    output: &mut O,
    line: u64,
    answer: &LineAnswer,
) -> Result<CacheResult, Sent>
    ensures ok { IfOk result (λ told. MayTell answer.now.spelling answer.now.outcome (λ o. (told ≡ result_of o) × Appends (O.taken output.old) (O.taken output.new) (framed line answer.now.actor answer.now.start (response_with document.now answer.now.spelling false o)))) }
    ensures err { OnErr result (MayTell answer.now.spelling answer.now.outcome (λ o. AppendsFront (O.taken output.old) (O.taken output.new) (framed line answer.now.actor answer.now.start (response_with document.now answer.now.spelling false o)))) }
    ensures cause { HasCause (O.faults output.old) (O.faults output.new) result }
{
    match parts_of(alloc, tables, document, answer.spelling, &answer.outcome) {
        Ok(parts) => match send_answer(output, line, answer.actor, answer.start, &parts) {
            Ok(()) => Ok(result_of(&answer.outcome)),
            Err(sent) => Err(sent),
        },
        Err(_) => match send_answer(output, line, answer.actor, answer.start, &bare(503)) {
            Ok(()) => Ok(CacheResult::Other),
            Err(sent) => Err(sent),
        },
    }
}
