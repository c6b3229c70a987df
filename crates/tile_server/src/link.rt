//! The words of a link: a leader's posts go over a connection, or the changes that come over one are made on the cache.
use crate::endings::{WorkedFile, end_with};
use crate::{CACHE, CATALOGUE, MARKS, OUTBOX, exit_code, status_of_error};
use base::Clock;
use exact_ratio::Words;
use http_wire::FileSource;
use link_words::{LinkWord, LinkingEnd, link_word, run_link};
use program_files::{CacheDisk, Input, StreamLink};
use std::fs::File;
use std::io;
use std::io::Eprint;
use std::net::{Net, TcpListener, TcpStream};
use std::process::ExitCode;
use std::rt::Files;

/// The connection that the words ask for: a leader waits for a follower's, and a follower makes one. Words that are none ask for none.
fn link_for<R: Net<Listener = TcpListener, Stream = TcpStream>>(
    rt: &R,
    word: Option<LinkWord>,
) -> io::Result<StreamLink> {
    match word {
        Some(LinkWord::Lead(port)) => StreamLink::accepted(rt, port),
        Some(LinkWord::Follow(port)) => StreamLink::connect(rt, port),
        None => Ok(StreamLink::without_bytes()),
    }
}

/// A file of a follower, opened for the word that works on it.
fn followers_file(rt: &impl Files<File = File>, word: Option<LinkWord>, path: &str) -> CacheDisk {
    match word {
        Some(LinkWord::Follow(_)) => CacheDisk::open(rt, path, false),
        Some(LinkWord::Lead(_)) | None => CacheDisk::Absent(0),
    }
}

/// The outbox, opened for the word that works on it.
fn leaders_file(rt: &impl Files<File = File>, word: Option<LinkWord>) -> CacheDisk {
    match word {
        Some(LinkWord::Lead(_)) => CacheDisk::open(rt, OUTBOX, false),
        Some(LinkWord::Follow(_)) | None => CacheDisk::Absent(0),
    }
}

/// Tells the end of a link on standard error, that it finished apart, and gives its code. A standard error that takes nothing changes
/// nothing.
fn link_ended(
    rt: &(impl Files<File = File> + Eprint + AllocGlobal),
    end: LinkingEnd,
    files: &[WorkedFile],
) -> ExitCode {
    match end {
        LinkingEnd::Status(status) => end_with(rt, status, files),
        LinkingEnd::Linked(_) => {
            let _ = eprintln!(rt; "{end}");
            ExitCode::from(end.code())
        }
    }
}

/// Does what the words of a link say. The connection is made first, so that a leader that waits for a follower has no file open.
pub fn link(rt: HostRuntime, words: &[Words]) -> ExitCode {
    let word = link_word(words);
    let mut link = match link_for(&rt, word) {
        Ok(link) => link,
        Err(error) => return exit_code(&rt, status_of_error(&error)),
    };
    let mut catalogue = Input::File(FileSource::open(&rt, CATALOGUE));
    let mut disk = followers_file(&rt, word, CACHE);
    let mut marks = followers_file(&rt, word, MARKS);
    let mut outbox = leaders_file(&rt, word);
    let end = run_link(
        rt.alloc(),
        words,
        &mut catalogue,
        &mut link,
        Clock::system(rt),
        &mut disk,
        &mut marks,
        &mut outbox,
    );
    let files = [
        WorkedFile::of(CACHE, &disk),
        WorkedFile::of(MARKS, &marks),
        WorkedFile::of(OUTBOX, &outbox),
    ];
    link_ended(&rt, end, &files)
}
