//! The texts of answers, sent.
ghost use Rattle.std.specs.Prelude.{◌≡◌, ◌≤◌, ◌+◌, ◌++◌, codes, decimal, length};
ghost use Rattle.arrayvec.specs.ArrayVec.{array_vec_len};
ghost use Rattle.sessions.specs.Outside.{OutputChange, counts};
ghost use Rattle.twin_lines.specs.OneLine.{IsToldAs};
ghost use Rattle.twin_lines.specs.Steps.{sent};
ghost use Rattle.twin_lines.specs.Texts.{answer_text, applied_text, carried_text, got_text, line_with, no_number, one_number, posted_text, taken_text, tile_lines, two_numbers};

use crate::line_end::TwinLineEnd;
use arrayvec::ArrayVec;
use change_feed::Applied;
use http_wire::ByteSink;
use outbox::Posted;
use tile_requests::{add, add_number, send_behind};
use twin_events::{CarriedPacket, Got};

/// A label and a number after it.
#[tactic(auto, unfolding(crate::specs::Texts::one_number))]
fn one_number(label: &[u8], number: u64) -> ArrayVec<u8, 1024>
    requires { length label.now ≤ 20 }
    ensures items { result.items ≡ one_number label.now number }
    ensures short { array_vec_len result ≤ 40 }
{
    let mut text = ArrayVec::new();
    add(&mut text, label);
    add_number(&mut text, number);
    text
}

/// A label and two numbers after it.
#[tactic(auto, unfolding(crate::specs::Texts::one_number, crate::specs::Texts::two_numbers))]
fn two_numbers(label: &[u8], number: u64, other: u64) -> ArrayVec<u8, 1024>
    requires { length label.now ≤ 20 }
    ensures items { result.items ≡ two_numbers label.now number other }
    ensures short { array_vec_len result ≤ 61 }
{
    let mut text = one_number(label, number);
    add(&mut text, b" ");
    add_number(&mut text, other);
    text
}

/// A label, a number, and a dash.
#[tactic(auto, unfolding(crate::specs::Texts::one_number, crate::specs::Texts::no_number))]
fn no_number(label: &[u8], number: u64) -> ArrayVec<u8, 1024>
    requires { length label.now ≤ 20 }
    ensures items { result.items ≡ no_number label.now number }
    ensures short { array_vec_len result ≤ 42 }
{
    let mut text = one_number(label, number);
    add(&mut text, b" -");
    text
}

/// Sends a text in two parts.
fn send_parts<O: ByteSink>(output: &mut O, front: ArrayVec<u8, 1024>, rest: &[u8]) -> TwinLineEnd
    requires { array_vec_len front ≤ 512 }
    ensures told { IsToldAs (record { writes = counts (O.faults output.old) (O.faults output.new); from = O.taken output.old; to = O.taken output.new }) (front.items ++ rest.now) result }
    ensures later { O.faults output.old ≤ O.faults output.new }
{
    match send_behind(output, front, rest) {
        Ok(()) => TwinLineEnd::Told,
        Err(_) => TwinLineEnd::WriteFault,
    }
}

/// Sends a text as a line.
#[tactic(auto, unfolding(crate::specs::Texts::line_with))]
fn send_line<O: ByteSink>(output: &mut O, text: ArrayVec<u8, 1024>) -> TwinLineEnd
    requires { array_vec_len text ≤ 100 }
    ensures told { IsToldAs (record { writes = counts (O.faults output.old) (O.faults output.new); from = O.taken output.old; to = O.taken output.new }) (line_with text.items) result }
    ensures later { O.faults output.old ≤ O.faults output.new }
{
    send_parts(output, text, b"\n")
}

/// What became of the change of a number.
fn applied_text(number: u64, reply: Applied) -> ArrayVec<u8, 1024>
    ensures items { result.items ≡ applied_text number reply }
    ensures short { array_vec_len result ≤ 61 }
{
    match reply {
        Applied::Repeated => one_number(b"repeated ", number),
        Applied::Gap(last) => two_numbers(b"gap ", number, last),
        Applied::FeedFault(None) => no_number(b"feed fault ", number),
        Applied::FeedFault(Some(cut)) => two_numbers(b"feed fault ", number, cut),
        Applied::Spent => one_number(b"spent ", number),
        Applied::Full => one_number(b"full ", number),
        Applied::DiskFault(_, _) => one_number(b"disk fault ", number),
        Applied::Done(cut) => two_numbers(b"done ", number, cut),
    }
}

/// Tells what became of a cover that was posted.
pub(crate) fn tell_posted<O: ByteSink>(output: &mut O, line: u64, reply: Posted) -> TwinLineEnd
    ensures told { IsToldAs (record { writes = counts (O.faults output.old) (O.faults output.new); from = O.taken output.old; to = O.taken output.new }) (posted_text line reply) result }
    ensures later { O.faults output.old ≤ O.faults output.new }
{
    match reply {
        Posted::Done(number) => send_line(output, two_numbers(b"post ", line, number)),
        Posted::Full => send_line(output, one_number(b"full ", line)),
        Posted::DiskFault(_, _) => send_line(output, one_number(b"disk fault ", line)),
    }
}

/// Tells the place of the packet that was sent, or that there was none to send.
pub(crate) fn tell_sent<O: ByteSink>(output: &mut O, line: u64, place: Option<u64>) -> TwinLineEnd
    ensures told { IsToldAs (record { writes = counts (O.faults output.old) (O.faults output.new); from = O.taken output.old; to = O.taken output.new }) (answer_text line (sent place)) result }
    ensures later { O.faults output.old ≤ O.faults output.new }
{
    match place {
        Some(place) => send_line(output, two_numbers(b"sent ", line, place)),
        None => send_line(output, one_number(b"nothing ", line)),
    }
}

/// Tells what became of the change of a number that was taken, and the place of the packet that tells what is seen then.
#[tactic(auto, unfolding(crate::specs::Texts::taken_text))]
fn tell_taken<O: ByteSink>(
    output: &mut O,
    line: u64,
    number: u64,
    reply: Applied,
    seen: u64,
) -> TwinLineEnd
    ensures told { IsToldAs (record { writes = counts (O.faults output.old) (O.faults output.new); from = O.taken output.old; to = O.taken output.new }) (taken_text line number reply seen) result }
    ensures later { O.faults output.old ≤ O.faults output.new }
{
    let mut text = one_number(b"taken ", line);
    add(&mut text, b" ");
    add(&mut text, applied_text(number, reply).as_slice());
    add(&mut text, b" ");
    add_number(&mut text, seen);
    send_parts(output, text, b"\n")
}

/// Tells what became of a packet that was carried.
pub(crate) fn tell_carried<O: ByteSink>(
    output: &mut O,
    line: u64,
    arrival: CarriedPacket,
) -> TwinLineEnd
    ensures told { IsToldAs (record { writes = counts (O.faults output.old) (O.faults output.new); from = O.taken output.old; to = O.taken output.new }) (carried_text line arrival) result }
    ensures later { O.faults output.old ≤ O.faults output.new }
{
    match arrival {
        CarriedPacket::Taken(number, reply, seen) => tell_taken(output, line, number, reply, seen),
        CarriedPacket::Heard(number) => send_line(output, two_numbers(b"heard ", line, number)),
        CarriedPacket::Ignored => send_line(output, one_number(b"ignored ", line)),
    }
}

/// Tells the number of a tile and how many bytes it has, and sends it behind.
#[tactic(auto, unfolding(crate::specs::Texts::tile_lines))]
fn tell_tile<O: ByteSink>(output: &mut O, line: u64, number: u64, bytes: &[u8]) -> TwinLineEnd
    ensures told { IsToldAs (record { writes = counts (O.faults output.old) (O.faults output.new); from = O.taken output.old; to = O.taken output.new }) (tile_lines line number bytes.now) result }
    ensures later { O.faults output.old ≤ O.faults output.new }
{
    let mut text = two_numbers(b"tile ", line, number);
    add(&mut text, b" ");
    add_number(&mut text, bytes.len() as u64);
    add(&mut text, b"\n");
    send_parts(output, text, bytes)
}

/// Tells what became of a tile that was asked for.
pub(crate) fn tell_got<O: ByteSink>(output: &mut O, line: u64, reply: &Got) -> TwinLineEnd
    ensures told { IsToldAs (record { writes = counts (O.faults output.old) (O.faults output.new); from = O.taken output.old; to = O.taken output.new }) (got_text line reply.now) result }
    ensures later { O.faults output.old ≤ O.faults output.new }
{
    match reply {
        Got::Tile(tile) => tell_tile(output, line, tile.number, tile.bytes.bytes()),
        Got::SourceFault => send_line(output, one_number(b"fault ", line)),
        Got::Spent => send_line(output, one_number(b"spent ", line)),
    }
}

/// Tells that a side was closed and opened again. `WriteFault` or `Told`.
pub fn tell_stopped<O: ByteSink>(output: &mut O, line: u64) -> TwinLineEnd
    ensures told { IsToldAs (record { writes = counts (O.faults output.old) (O.faults output.new); from = O.taken output.old; to = O.taken output.new }) (line_with (one_number (codes "stopped ") line)) result }
    ensures later { O.faults output.old ≤ O.faults output.new }
{
    send_line(output, one_number(b"stopped ", line))
}
