//! Tests of http_answer: answers cut after each byte, and one of each fault.
ghost use Rattle.std.specs.Prelude.{◌≤◌, length};

use http_answer::{AnswerError, AnswerFault, AnswerSoFar, HttpAnswer, Misframed};
use std::alloc::{AllocError, Global};
use std::test::Fail;

/// The body of an answer that comes in two pieces, before the stream ends.
fn body_of(alloc: Global, bytes: &[u8], cut: usize, limit: usize) -> Result<Vec<u8>, AnswerError>
    requires { cut ≤ length bytes.now }
{
    let (first, second) = bytes.split_at(cut);
    let answer = match HttpAnswer::new(alloc, limit).take(first) {
        Ok(AnswerSoFar::More(answer)) => answer,
        Ok(AnswerSoFar::Whole(body)) => return Ok(body),
        Err(error) => return Err(error),
    };
    let answer = match answer.take(second) {
        Ok(AnswerSoFar::More(answer)) => answer,
        Ok(AnswerSoFar::Whole(body)) => return Ok(body),
        Err(error) => return Err(error),
    };
    match answer.end() {
        Ok(body) => Ok(body),
        Err(fault) => Err(AnswerError::Refused(fault)),
    }
}

fn is_body(told: Result<Vec<u8>, AnswerError>, expected: &[u8]) -> bool {
    match told {
        Ok(body) => body.as_slice() == expected,
        Err(_) => false,
    }
}

fn is_fault(told: Result<Vec<u8>, AnswerError>, expected: AnswerFault) -> bool {
    match told {
        Ok(_) => false,
        Err(error) => error == AnswerError::Refused(expected),
    }
}

/// Whether the answer has this body, wherever it is cut.
fn gives(alloc: Global, bytes: &[u8], expected: &[u8]) -> bool {
    for cut in 0..bytes.len() {
        if !is_body(body_of(alloc, bytes, cut, 1000), expected) {
            return false;
        }
    }
    true
}

/// Whether the answer is refused for this reason, wherever it is cut.
fn refuses(alloc: Global, bytes: &[u8], expected: AnswerFault) -> bool {
    for cut in 0..bytes.len() {
        if !is_fault(body_of(alloc, bytes, cut, 1000), expected) {
            return false;
        }
    }
    true
}

#[test]
fn a_body_ends_by_its_length_or_with_the_stream(rt: HostRuntime) {
    let alloc = rt.alloc();
    assert!(rt;
        gives(
            alloc,
            b"HTTP/1.1 200 OK\r\nContent-Length: 3\r\n\r\nabc",
            b"abc"
        )
    );
    assert!(rt;
        gives(
            alloc,
            b"HTTP/1.1 200 OK\r\ncontent-length:003\r\n\r\nabcd",
            b"abc"
        )
    );
    assert!(rt; gives(alloc, b"HTTP/1.0 200 OK\r\nServer: x\r\n\r\nabc", b"abc"));
    assert!(rt; gives(alloc, b"HTTP/1.1 200\n\n", b""));
}

/// The example of a chunked body that Wikipedia has, and the same with extensions and a trailer.
#[test]
fn chunks_are_joined(rt: HostRuntime) {
    let alloc = rt.alloc();
    let plain =
        b"HTTP/1.1 200 OK\r\nTransfer-Encoding: chunked\r\n\r\n4\r\nWiki\r\n6\r\npedia \r\nE\r\nin \r\n\r\nchunks.\r\n0\r\n\r\n";
    let full =
        b"HTTP/1.1 200 OK\r\ntransfer-encoding:Chunked\r\n\r\n04;a=b\r\nWiki\r\n6 \r\npedia \r\ne\r\nin \r\n\r\nchunks.\r\n00\r\nA: b\r\n\r\n";
    assert!(rt; gives(alloc, plain, b"Wikipedia in \r\n\r\nchunks."));
    assert!(rt; gives(alloc, full, b"Wikipedia in \r\n\r\nchunks."));
}

#[test]
fn another_status_is_told(rt: HostRuntime) {
    let alloc = rt.alloc();
    assert!(rt;
        refuses(
            alloc,
            b"HTTP/1.1 100 Continue\r\n\r\n",
            AnswerFault::Status(100)
        )
    );
    assert!(rt;
        refuses(
            alloc,
            b"HTTP/1.1 404 Not Found\r\nContent-Length: x\r\n\r\n",
            AnswerFault::Status(404)
        )
    );
    assert!(rt; refuses(alloc, b"SSH-2.0-OpenSSH_9.2\r\n", AnswerFault::NotHttp));
}

/// Whether an answer whose head has these fields is refused for this reason.
fn misframes(alloc: Global, fields: &[u8], expected: Misframed) -> Result<bool, AllocError> {
    let mut head = Vec::from_slice(alloc, b"HTTP/1.1 200 OK\r\n")?;
    head.extend_from_slice(fields)?;
    head.extend_from_slice(b"\r\n\r\n")?;
    Ok(refuses(alloc, head.as_slice(), AnswerFault::Framing(expected)))
}

#[test]
fn a_wrong_framing_is_told(rt: HostRuntime) -> Result<(), Fail> {
    let alloc = rt.alloc();
    assert!(rt; misframes(alloc, b"Content-Length: +1", Misframed::NotALength)?);
    assert!(rt;
        misframes(
            alloc,
            b"Content-Length: 1\r\nContent-Length: 1",
            Misframed::TwoLengths
        )?
    );
    assert!(rt;
        misframes(
            alloc,
            b"Transfer-Encoding: gzip, chunked",
            Misframed::OtherCoding
        )?
    );
    assert!(rt;
        misframes(
            alloc,
            b"Transfer-Encoding: chunked\r\nContent-Length: 1",
            Misframed::LengthBesideCoding
        )?
    );
    Ok(())
}

#[test]
fn a_coding_in_an_old_version_is_told(rt: HostRuntime) {
    let bytes = b"HTTP/1.0 200 OK\r\nTransfer-Encoding: chunked\r\n\r\n";
    assert!(rt;
        refuses(
            rt.alloc(),
            bytes,
            AnswerFault::Framing(Misframed::OtherCoding)
        )
    );
}

#[test]
fn a_broken_or_cut_body_is_told(rt: HostRuntime) {
    let alloc = rt.alloc();
    assert!(rt;
        refuses(
            alloc,
            b"HTTP/1.1 200 OK\r\nTransfer-Encoding: chunked\r\n\r\n1\r\nab\r\n",
            AnswerFault::BrokenChunk
        )
    );
    assert!(rt;
        refuses(
            alloc,
            b"HTTP/1.1 200 OK\r\nTransfer-Encoding: chunked\r\n\r\n-1\r\n",
            AnswerFault::BrokenChunk
        )
    );
    assert!(rt;
        refuses(
            alloc,
            b"HTTP/1.1 200 OK\r\nTransfer-Encoding: chunked\r\n\r\n1\r\na\r\n0\r\n",
            AnswerFault::CutOff
        )
    );
    assert!(rt;
        refuses(
            alloc,
            b"HTTP/1.1 200 OK\r\nContent-Length: 3\r\n\r\nab",
            AnswerFault::CutOff
        )
    );
    assert!(rt; refuses(alloc, b"HTTP/1.1 200 OK\r\nContent-", AnswerFault::CutOff));
}

#[test]
fn a_long_answer_is_told(rt: HostRuntime) -> Result<(), Fail> {
    let alloc = rt.alloc();
    let bytes = b"HTTP/1.1 200 OK\r\n\r\nabc";
    assert!(rt; is_body(body_of(alloc, bytes, 10, 22), b"abc"));
    assert!(rt; is_fault(body_of(alloc, bytes, 10, 21), AnswerFault::TooLong));
    let mut head = Vec::from_slice(alloc, b"HTTP/1.1 200 ")?;
    head.extend_from_slice(&[b'a'; 16384])?;
    assert!(rt;
        is_fault(
            body_of(alloc, head.as_slice(), 10, 20000),
            AnswerFault::HeadTooLong
        )
    );
    Ok(())
}

#[test]
fn many_fields_are_told(rt: HostRuntime) -> Result<(), Fail> {
    let alloc = rt.alloc();
    let mut head = Vec::from_slice(alloc, b"HTTP/1.1 200 OK\r\n")?;
    for _ in 0..64 {
        head.extend_from_slice(b"A: b\r\n")?;
    }
    let mut more = Vec::from_slice(alloc, head.as_slice())?;
    head.extend_from_slice(b"\r\n")?;
    more.extend_from_slice(b"A: b\r\n\r\n")?;
    assert!(rt; is_body(body_of(alloc, head.as_slice(), 0, 1000), b""));
    assert!(rt;
        is_fault(
            body_of(alloc, more.as_slice(), 0, 1000),
            AnswerFault::TooManyFields
        )
    );
    Ok(())
}
