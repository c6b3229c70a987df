//! http_wire: the messages of a stream
use crate::streams::source;
use http_wire::{MemoryLink, MemorySink, Message, MessageReader, Method, Next, Stop, WireFault};
use std::alloc::{AllocError, Global};
use std::test::Fail;

const FIRST: &[u8] = b"GET /usage HTTP/1.1\r\nHost: a\r\n\r\n";

const SECOND: &[u8] =
    b"GET /wmts?service=WMTS&request=GetFeatureInfo HTTP/1.1\r\nConnection: close\r\n\r\n";

fn joined(alloc: Global, first: &[u8], second: &[u8]) -> Result<Vec<u8>, AllocError> {
    let mut bytes = Vec::from_slice(alloc, first)?;
    bytes.extend_from_slice(second)?;
    Ok(bytes)
}

fn link_of(
    alloc: Global,
    bytes: &[u8],
    piece: usize,
    fail: &[u64],
) -> Result<MemoryLink, AllocError> {
    let source = source(alloc, bytes, piece, fail)?;
    Ok(MemoryLink::new(source, MemorySink::new(alloc, Vec::new(alloc))))
}

/// The messages of a stream, and how it stops; `None` after more than ten messages or a fault.
fn read(
    alloc: Global,
    bytes: &[u8],
    piece: usize,
) -> Result<(Vec<Message>, Option<Stop>), AllocError> {
    let mut link = link_of(alloc, bytes, piece, &[])?;
    let mut reader = MessageReader::new(alloc)?;
    let mut found = Vec::new(alloc);
    for _ in 0..10 {
        match reader.next(alloc, &mut link) {
            Ok(Next::Message(message)) => found.push(message)?,
            Ok(Next::End) => return Ok((found, Some(Stop::End))),
            Ok(Next::Truncated) => return Ok((found, Some(Stop::Truncated))),
            Ok(Next::Bad(status)) => return Ok((found, Some(Stop::Bad(status)))),
            Err(_) => return Ok((found, None)),
        }
    }
    Ok((found, None))
}

/// Whether a stream stops so, in pieces of a byte.
fn stops(alloc: Global, bytes: &[u8], expected: Stop) -> Result<bool, AllocError> {
    let (_, stop) = read(alloc, bytes, 1)?;
    Ok(stop == Some(expected))
}

fn is_usage(message: &Message) -> bool {
    message.method == Method::Get && message.target.bytes() == b"/usage".as_slice()
}

/// Whether these are two messages, the first of which is for the usage, and the second the last one.
fn are_both(found: &[Message]) -> bool {
    match found {
        [first, second] => is_usage(first) && !first.last && second.last,
        _ => false,
    }
}

#[test]
fn two_messages_are_read_in_any_pieces(rt: HostRuntime) -> Result<(), Fail> {
    let bytes = joined(rt.alloc(), FIRST, SECOND)?;
    for piece in 0..bytes.len() {
        let (found, stop) = read(rt.alloc(), &bytes, piece)?;
        assert!(rt; stop == Some(Stop::End));
        assert!(rt; are_both(found.as_slice()));
    }
    Ok(())
}

/// How many messages of both stand whole in so many bytes, and whether the stream may end there.
fn at_end(end: usize, all: usize) -> (usize, Stop) {
    if end == all {
        (2, Stop::End)
    } else if end == FIRST.len() {
        (1, Stop::End)
    } else if end > FIRST.len() {
        (1, Stop::Truncated)
    } else if end > 0 {
        (0, Stop::Truncated)
    } else {
        (0, Stop::End)
    }
}

#[test]
fn a_stream_that_is_cut_after_a_byte_is_truncated(rt: HostRuntime) -> Result<(), Fail> {
    let bytes = joined(rt.alloc(), FIRST, SECOND)?;
    for end in 0..=bytes.len() {
        let (front, _) = bytes.as_slice().split_at(end);
        let (found, stop) = read(rt.alloc(), front, 1)?;
        let (count, expected) = at_end(end, bytes.len());
        assert!(rt; found.len() == count, "cut after {end}");
        assert!(rt; stop == Some(expected), "cut after {end}");
    }
    Ok(())
}

#[test]
fn a_body_is_as_long_as_the_head_says(rt: HostRuntime) -> Result<(), Fail> {
    let bytes =
        b"\r\nPOST /expire HTTP/1.0\r\ncontent-LENGTH: 05\r\n\r\nhelloDELETE /jobs/1 HTTP/1.1\n\nHEAD / HTTP/1.1\r\nConnection: close, te\r\n\r\n";
    let (found, stop) = read(rt.alloc(), bytes, 7)?;
    assert!(rt; stop == Some(Stop::End));
    assert!(rt; found.len() == 3);
    assert!(rt; found[0].body.bytes() == b"hello".as_slice());
    assert!(rt; found[0].last && !found[2].last);
    let methods = [found[0].method, found[1].method, found[2].method];
    assert!(rt; methods == [Method::Post, Method::Delete, Method::Other]);
    Ok(())
}

#[test]
fn a_stream_stops_for_its_reason(rt: HostRuntime) -> Result<(), Fail> {
    let cases: [(&[u8], Stop); 9] = [
        (b"\r\n\r\n", Stop::Truncated),
        (
            b"POST / HTTP/1.1\r\nContent-Length: 5\r\n\r\nhell",
            Stop::Truncated,
        ),
        (b"GET / HTTP/2.0\r\n", Stop::Bad(400)),
        (
            b"POST / HTTP/1.1\r\nContent-Length: +5\r\n\r\nhello",
            Stop::Bad(400),
        ),
        (
            b"POST / HTTP/1.1\r\nContent-Length: 0000000000000000005\r\n\r\n",
            Stop::Bad(400),
        ),
        (
            b"POST / HTTP/1.1\r\nContent-Length: 5\r\nContent-Length: 5\r\nTransfer-Encoding: a\r\n\r\n",
            Stop::Bad(400),
        ),
        (
            b"POST / HTTP/1.1\r\nTransfer-Encoding: chunked\r\nContent-Length: 65537\r\n\r\n",
            Stop::Bad(501),
        ),
        (
            b"POST / HTTP/1.1\r\nContent-Length: 65537\r\n\r\n",
            Stop::Bad(413),
        ),
        (
            b"POST / HTTP/1.1\r\nContent-Length: 65536\r\n\r\n",
            Stop::Truncated,
        ),
    ];
    for (bytes, expected) in cases {
        assert!(rt; stops(rt.alloc(), bytes, expected)?);
    }
    Ok(())
}

/// A front, a text so many times, and an end.
fn repeated(
    alloc: Global,
    front: &[u8],
    text: &[u8],
    times: usize,
    end: &[u8],
) -> Result<Vec<u8>, AllocError> {
    let mut bytes = Vec::from_slice(alloc, front)?;
    for _ in 0..times {
        bytes.extend_from_slice(text)?;
    }
    bytes.extend_from_slice(end)?;
    Ok(bytes)
}

// The limits are 64 fields and 16,384 bytes. Empty lines in front count, and aren't read again with each byte.
#[test]
fn a_head_has_its_limits(rt: HostRuntime) -> Result<(), Fail> {
    let alloc = rt.alloc();
    let line: &[u8] = b"GET / HTTP/1.1\r\n";
    let host: &[u8] = b"GET / HTTP/1.1\r\nHost: ";
    let longer: &[u8] = b"\nGET / HTTP/1.1\r\nHost: ";
    let field: &[u8] = b"a: b\r\n";
    for (front, text, times, end, expected) in [
        (line, field, 64, b"\r\n".as_slice(), Stop::End),
        (line, field, 65, b"\r\n".as_slice(), Stop::Bad(431)),
        (
            host,
            b"a".as_slice(),
            16_358,
            b"\r\n\r\n".as_slice(),
            Stop::End,
        ),
        (
            longer,
            b"a".as_slice(),
            16_358,
            b"\r\n\r\n".as_slice(),
            Stop::Bad(431),
        ),
        (
            b"".as_slice(),
            b"\n".as_slice(),
            16_384,
            b"".as_slice(),
            Stop::Bad(431),
        ),
    ] {
        let bytes = repeated(alloc, front, text, times, end)?;
        assert!(rt; stops(alloc, &bytes, expected)?);
    }
    Ok(())
}

/// Whether the next thing that is read over a link is a message.
fn brings_a_message(alloc: Global, reader: &mut MessageReader, link: &mut MemoryLink) -> bool {
    matches!(reader.next(alloc, link), Ok(Next::Message(_)))
}

/// Whether the next read over a link fails.
fn fails(alloc: Global, reader: &mut MessageReader, link: &mut MemoryLink) -> bool {
    matches!(reader.next(alloc, link), Err(WireFault::ReadFault))
}

#[test]
fn a_fault_behind_a_message_comes_after_it(rt: HostRuntime) -> Result<(), Fail> {
    let alloc = rt.alloc();
    let mut link = link_of(alloc, FIRST, FIRST.len(), &[2])?;
    let mut reader = MessageReader::new(alloc)?;
    assert!(rt; brings_a_message(alloc, &mut reader, &mut link));
    assert!(rt; fails(alloc, &mut reader, &mut link));
    assert!(rt; fails(alloc, &mut reader, &mut link));
    Ok(())
}
