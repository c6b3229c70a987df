//! The words of a feed: numbered changes, each made once on the cache.
use crate::endings::{WorkedFile, end_with};
use crate::{CACHE, CATALOGUE, MARKS};
use base::Clock;
use exact_ratio::Words;
use feed_words::{FeedWord, feed_word, run_feed};
use http_wire::{FileSource, StdinSource, StdoutSink};
use program_files::{CacheDisk, Input};
use std::fs::File;
use std::process::ExitCode;
use std::rt::Files;

/// The cache's file, opened for the word that works on it.
fn cache_for(rt: &impl Files<File = File>, words: &[Words]) -> CacheDisk {
    match feed_word(words) {
        Some(FeedWord::Run) => CacheDisk::open(rt, CACHE, false),
        Some(FeedWord::Make) | None => CacheDisk::Absent(0),
    }
}

/// The file of the marks, opened for the words that work on it, and made by the one that makes it.
fn marks_for(rt: &impl Files<File = File>, words: &[Words]) -> CacheDisk {
    match feed_word(words) {
        Some(word) => CacheDisk::open(rt, MARKS, word == FeedWord::Make),
        None => CacheDisk::Absent(0),
    }
}

/// Does what the words of a feed say.
pub fn feed(rt: HostRuntime, words: &[Words]) -> ExitCode {
    let mut catalogue = Input::File(FileSource::open(&rt, CATALOGUE));
    let mut input = Input::Stdin(StdinSource::new(rt.stdin()));
    let mut output = StdoutSink::new(rt.stdout());
    let mut disk = cache_for(&rt, words);
    let mut marks = marks_for(&rt, words);
    let status = run_feed(
        rt.alloc(),
        words,
        &mut catalogue,
        &mut input,
        &mut output,
        Clock::system(rt),
        &mut disk,
        &mut marks,
    );
    let files = [WorkedFile::of(CACHE, &disk), WorkedFile::of(MARKS, &marks)];
    end_with(&rt, status, &files)
}
