//! How the response to a message is written, and that to bytes that are no message.
ghost use Rattle.std.specs.Io.KnownBytes.{Appends};
ghost use Rattle.std.specs.Prelude.{◌≡◌, true, OnErr, OnOk};
ghost use Rattle.base.specs.Causes.{HasCause};
ghost use Rattle.sessions.specs.Responses.{MayTell, bad_text};
ghost use Rattle.tile_requests.specs.Response.{response_text, response_with};
ghost use Rattle.tile_requests.specs.Sent.{AppendsFront};
ghost use Rattle.tile_requests.specs.Shown.{shown_parts};

use http_wire::{ByteSink, Sent};
use png_text::CrcTables;
use std::alloc::Global;
use tile_requests::{LentResponse, Outcome, Spelling, bare, head, parts_of, send_behind};

/// Sends a response, which closes its connection or does not.
fn send_response<O: ByteSink>(
    sink: &mut O,
    closes: bool,
    parts: &LentResponse<'_>,
) -> Result<(), Sent>
    ensures ok { OnOk result (Appends (O.taken sink.old) (O.taken sink.new) (response_text closes (shown_parts parts.now))) }
    ensures err { OnErr result (AppendsFront (O.taken sink.old) (O.taken sink.new) (response_text closes (shown_parts parts.now))) }
    ensures cause { HasCause (O.faults sink.old) (O.faults sink.new) result }
    ensures apart { O.apart sink.new ≡ O.apart sink.old }
{
    send_behind(sink, head(closes, parts), parts.body.bytes())
}

/// Writes the response to a message with this outcome, in which a tile is spelt so; `closes` says whether it closes the connection, and
/// `document` is the capabilities document. Where memory runs out, the response says so. `Sent` where a write failed.
pub fn write_response<O: ByteSink>(
    alloc: Global,
    tables: &CrcTables,
    document: &[u8],
    sink: &mut O,
    spelling: Spelling,
    closes: bool,
    outcome: &Outcome,
) -> Result<(), Sent>
    ensures ok { OnOk result (MayTell spelling outcome.now (λ o. Appends (O.taken sink.old) (O.taken sink.new) (response_with document.now spelling closes o))) }
    ensures err { OnErr result (MayTell spelling outcome.now (λ o. AppendsFront (O.taken sink.old) (O.taken sink.new) (response_with document.now spelling closes o))) }
    ensures cause { HasCause (O.faults sink.old) (O.faults sink.new) result }
    ensures apart { O.apart sink.new ≡ O.apart sink.old }
{
    match parts_of(alloc, tables, document, spelling, outcome) {
        Ok(parts) => send_response(sink, closes, &parts),
        Err(_) => send_response(sink, closes, &bare(503)),
    }
}

/// Writes the response to bytes that are no message, for the reason that the status gives. It takes no memory. `Sent` where
/// a write failed.
pub fn write_refusal<O: ByteSink>(sink: &mut O, status: u16) -> Result<(), Sent>
    ensures ok { OnOk result (Appends (O.taken sink.old) (O.taken sink.new) (bad_text status)) }
    ensures err { OnErr result (AppendsFront (O.taken sink.old) (O.taken sink.new) (bad_text status)) }
    ensures cause { HasCause (O.faults sink.old) (O.faults sink.new) result }
    ensures apart { O.apart sink.new ≡ O.apart sink.old }
{
    send_response(sink, true, &bare(status))
}
