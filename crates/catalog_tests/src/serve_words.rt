//! The words after `serve`: a port, and how many connections.
use command_words::{ServeFault, ServeWords, serve_words};
use exact_ratio::Words;
use std::alloc::Global;
use std::test::Fail;

/// What these words, parted by blanks, ask for.
fn asked(alloc: Global, text: &str) -> Result<Result<ServeWords, ServeFault>, Fail> {
    let mut words = Vec::new(alloc);
    for word in text.split(' ') {
        words.push(Words::new(alloc, word.as_bytes())?)?;
    }
    Ok(serve_words(alloc, words.as_slice()))
}

/// Whether these words ask for this port and so many connections.
fn asks_for(alloc: Global, text: &str, port: u16, connections: u32) -> Result<bool, Fail> {
    Ok(asked(alloc, text)? == Ok(ServeWords { port, connections }))
}

#[test]
fn two_numbers_in_their_ranges_are_taken_in_either_order(rt: HostRuntime) -> Result<(), Fail> {
    let alloc = rt.alloc();
    assert!(rt; asks_for(alloc, "--port 8080 --connections 5", 8_080, 5)?);
    assert!(rt; asks_for(alloc, "--connections 5 --port 8080", 8_080, 5)?);
    assert!(rt; asks_for(alloc, "--port 1 --connections 1", 1, 1)?);
    assert!(rt;
        asks_for(
            alloc,
            "--port 65535 --connections 1000000",
            65_535,
            1_000_000
        )?
    );
    Ok(())
}

#[test]
fn other_words_are_refused(rt: HostRuntime) -> Result<(), Fail> {
    let alloc = rt.alloc();
    for text in [
        "--port 0 --connections 5",
        "--port 65536 --connections 5",
        "--port 8080 --connections 0",
        "--port 8080 --connections 1000001",
        "--port 8080",
        "--port 8080 --connections five",
        "--port 8080 --connections 5 more",
        "",
    ] {
        assert!(rt; asked(alloc, text)? == Err(ServeFault::Usage), "{text}");
    }
    Ok(())
}

#[test]
fn a_word_that_is_no_text_is_refused(rt: HostRuntime) -> Result<(), Fail> {
    let alloc = rt.alloc();
    let words = vec![in alloc; Words::new(alloc, b"--port")?, Words::new(alloc, &[0xff])?]?;
    assert!(rt; serve_words(alloc, words.as_slice()) == Err(ServeFault::Usage));
    Ok(())
}
