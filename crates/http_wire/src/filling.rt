//! How bytes are taken until they settle what comes next. They are parsed only where a head may end in them or has no
//! room left, so that pieces of one byte don't cost a parse each.
ghost use Rattle.std.specs.Prelude.{◌≡◌, ◌≤◌, ◌+◌, false, max, length};
ghost use Rattle.http_wire.specs.Lines.{is_line_byte, IsBlankUpTo, HasNoLineEnd, Extends};
ghost use Rattle.http_wire.specs.Looks.{HoldsHead, MayHaveHead};
ghost use Rattle.http_wire.specs.Takes.{Takes, BringsPiece, BringsLine, BringsUpTo, Gains, Finds, FindsHead};

use crate::look::{HEAD_LIMIT, LookOutcome, at_end, step};
use crate::message::WireFault;
use crate::streams::ByteSource;
use httparse::spans::HeaderSpan;

/// How many bytes are taken at a time, at most.
pub const TAKE_SIZE: usize = 4096;

/// Takes more bytes after those that are held; false at the end of the source.
fn take_more<S: ByteSource>(held: &mut Vec<u8>, source: &mut S) -> Result<bool, WireFault>
    ensures takes { Takes held.old.items held.new.items (S.left source.old) (S.left source.new) (S.faults source.old) (S.faults source.new) (S.apart source.old) (S.apart source.new) result }
    ensures brings { BringsPiece held.old.items held.new.items (S.left source.new) result }
{
    let mut chunk = [0; TAKE_SIZE];
    let Ok(count) = source.take(&mut chunk) else {
        return Err(WireFault::ReadFault);
    };
    if count == 0 {
        return Ok(false);
    }
    let (bytes, _) = chunk.as_slice().split_at(count);
    if held.extend_from_slice(bytes).is_err() {
        return Err(WireFault::OutOfMemory);
    }
    Ok(true)
}

/// Whether the byte is one of those of a line end.
fn is_line_byte(byte: u8) -> bool
    ensures { result ≡ is_line_byte byte }
{
    byte == b'\r' || byte == b'\n'
}

/// How many bytes at the front are those of line ends, of which the first `known` are.
fn blank_front(held: &[u8], known: usize) -> usize
    requires known { known ≤ length held.now }
    requires blank { IsBlankUpTo known held.now }
    ensures within { result ≤ length held.now }
    ensures grows { known ≤ result }
    ensures blank { IsBlankUpTo result held.now }
{
    let mut blank = known;
    for byte in &held[known..] {
        if !is_line_byte(*byte) {
            return blank;
        }
        blank += 1;
    }
    blank
}

/// Whether a head may end in the bytes from a place on: a line ends there, and the bytes aren't empty lines alone.
fn may_end_head(held: &[u8], from: usize, blank: usize) -> bool
    requires { from ≤ length held.now }
    ensures { result ≡ false → HasNoLineEnd (max blank from) (length held.now) held.now }
{
    if blank == held.len() {
        return false;
    }
    let (_, new) = held.split_at(from);
    new.contains(&b'\n')
}

/// Takes more bytes until a head may end in them, or they leave no room for one; false where none are left. A look at the
/// bytes costs as much as they are many, so that it is worth while only then: pieces of one byte, and empty lines, are
/// read in a time that grows with their number alone.
fn take_line<S: ByteSource>(held: &mut Vec<u8>, source: &mut S) -> Result<bool, WireFault>
    ensures takes { Takes held.old.items held.new.items (S.left source.old) (S.left source.new) (S.faults source.old) (S.faults source.new) (S.apart source.old) (S.apart source.new) result }
    ensures brings { BringsLine held.old.items held.new.items (S.left source.new) result }
{
    let mut seen = held.len();
    let mut blank = blank_front(held.as_slice(), 0);
    if !take_more(held, source)? {
        return Ok(false);
    }
    blank = blank_front(held.as_slice(), blank);
    'line: while held.len() < HEAD_LIMIT && !may_end_head(held.as_slice(), seen, blank) {
        seen = held.len();
        if !take_more(held, source)? {
            return Ok(true);
        }
        blank = blank_front(held.as_slice(), blank);
    }
    Ok(true)
}

/// Reads on until the bytes that are held settle what comes.
fn read_on<S: ByteSource>(
    held: &mut Vec<u8>,
    source: &mut S,
    headers: &mut [HeaderSpan],
) -> Result<LookOutcome, WireFault>
    requires room { length headers.old ≡ 64 }
    requires unsettled { MayHaveHead held.old.items }
    ensures takes { Takes held.old.items held.new.items (S.left source.old) (S.left source.new) (S.faults source.old) (S.faults source.new) (S.apart source.old) (S.apart source.new) result }
    ensures finds { Finds held.new.items (S.left source.new) headers.new result }
{
    'reading: loop {
        if !take_line(held, source)? {
            return Ok(LookOutcome::Stopped(at_end(held.as_slice())));
        }
        if let Some(found) = step(held.as_slice(), headers) {
            return Ok(found);
        }
    }
}

/// Reads until the bytes that are held settle what comes; nothing where they hold a whole head.
pub fn read_head<S: ByteSource>(
    held: &mut Vec<u8>,
    source: &mut S,
    headers: &mut [HeaderSpan],
) -> Result<LookOutcome, WireFault>
    requires { length headers.old ≡ 64 }
    ensures takes { Takes held.old.items held.new.items (S.left source.old) (S.left source.new) (S.faults source.old) (S.faults source.new) (S.apart source.old) (S.apart source.new) result }
    ensures finds { FindsHead held.old.items held.new.items (S.left source.new) headers.new result }
    ensures untouched { HoldsHead held.old.items → (source.new ≡ source.old) × (held.new ≡ held.old) }
{
    match step(held.as_slice(), headers) {
        Some(found) => Ok(found),
        None => read_on(held, source, headers),
    }
}

/// Reads until so many bytes are held, and nothing where they are; false where the source ends before.
pub fn read_up_to<S: ByteSource>(
    held: &mut Vec<u8>,
    source: &mut S,
    need: usize,
) -> Result<bool, WireFault>
    ensures takes { Takes held.old.items held.new.items (S.left source.old) (S.left source.new) (S.faults source.old) (S.faults source.new) (S.apart source.old) (S.apart source.new) result }
    ensures brings { BringsUpTo need held.new.items (S.left source.new) result }
    ensures untouched { need ≤ length held.old.items → source.new ≡ source.old }
    ensures gains { Gains need held.old.items held.new.items }
{
    'reading: while held.len() < need {
        if !take_more(held, source)? {
            return Ok(false);
        }
    }
    Ok(true)
}
