//! http_wire: what bytes come from and go to
use http_wire::{
    ByteSink, ByteSource, Failed, FileSource, InputEnd, Link, MemoryLink, MemorySink, MemorySource,
    Sent, read_all, send,
};
use std::alloc::{AllocError, Global};
use std::rt::Files;
use std::test::Fail;
use std::{fs, process};

/// A source of these bytes in pieces, of which the listed takes fail.
pub fn source(
    alloc: Global,
    bytes: &[u8],
    piece: usize,
    fail: &[u64],
) -> Result<MemorySource, AllocError> {
    let bytes = Vec::from_slice(alloc, bytes)?;
    Ok(MemorySource::new(bytes, piece, Vec::from_slice(alloc, fail)?))
}

fn is_expected(text: &[u8], expected: Result<&str, InputEnd>) -> bool {
    match expected {
        Ok(expected) => text == expected.as_bytes(),
        Err(_) => false,
    }
}

/// Whether a source has this text of at most nine bytes, or ends so.
fn gives<S: ByteSource>(alloc: Global, input: &mut S, expected: Result<&str, InputEnd>) -> bool {
    match read_all(alloc, input, 9) {
        Ok(text) => is_expected(text.as_slice(), expected),
        Err(end) => expected.err() == Some(end),
    }
}

#[test]
fn a_source_is_read_to_its_end_in_pieces(rt: HostRuntime) -> Result<(), Fail> {
    for piece in [0, 1, 3, 64] {
        let mut input = source(rt.alloc(), b"demo grey", piece, &[])?;
        assert!(rt; gives(rt.alloc(), &mut input, Ok("demo grey")));
    }
    Ok(())
}

#[test]
fn a_long_or_failing_input_is_refused(rt: HostRuntime) -> Result<(), Fail> {
    let alloc = rt.alloc();
    let mut long = source(alloc, b"demo greys", 64, &[])?;
    assert!(rt; gives(alloc, &mut long, Err(InputEnd::TooLong)));
    let mut failing = source(alloc, b"demo grey", 4, &[2])?;
    assert!(rt; gives(alloc, &mut failing, Err(InputEnd::ReadFault)));
    assert!(rt; gives(alloc, &mut failing, Ok(" grey")));
    Ok(())
}

fn exchange<L: Link>(link: &mut L, question: &mut [u8; 4]) -> Result<usize, Failed> {
    let count = link.take(question)?;
    link.put(b"hit")?;
    Ok(count)
}

#[test]
fn a_link_is_taken_from_and_sent_over(rt: HostRuntime) -> Result<(), Fail> {
    let alloc = rt.alloc();
    let sink = MemorySink::new(alloc, Vec::from_slice(alloc, &[3])?);
    let mut link = MemoryLink::new(source(alloc, b"get", 64, &[])?, sink);
    let mut question = [0; 4];
    assert!(rt; matches!(exchange(&mut link, &mut question), Ok(3)));
    assert!(rt; question == *b"get\0");
    assert!(rt; matches!(exchange(&mut &mut link, &mut question), Ok(0)));
    assert!(rt; matches!(send(&mut link, b"lost"), Err(Sent(0))));
    assert!(rt; send(&mut link, b" miss").is_ok());
    assert!(rt; link.taken() == b"hithit miss".as_slice());
    Ok(())
}

#[test]
fn a_file_is_read_and_an_absent_one_is_empty(rt: HostRuntime) -> Result<(), Fail> {
    let alloc = rt.alloc();
    let path = format!(in alloc; "/tmp/input_{}", process::id(rt.process()))?;
    fs::write(&rt, path.as_str(), "demo grey")?;
    let mut input = FileSource::open(&rt, path.as_str());
    fs::remove_file(&rt, path.as_str())?;
    let mut absent = FileSource::open(&rt, path.as_str());
    let mut within_a_file = FileSource::open(&rt, "/dev/null/input");
    assert!(rt; gives(alloc, &mut input, Ok("demo grey")));
    assert!(rt; gives(alloc, &mut absent, Ok("")));
    assert!(rt; gives(alloc, &mut within_a_file, Err(InputEnd::ReadFault)));
    Ok(())
}
