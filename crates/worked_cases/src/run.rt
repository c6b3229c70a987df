//! One run of the command over memory forms, and how it differs from what is expected.

use crate::disks::{Contents, Crashes, Disks};
use crate::fakes::{Fake, Fakes};
use crate::source_fake::SourceFake;
use crate::top_calls::{Streams, status_by};
use base::Clock;
use command_setup::source_number;
use exact_ratio::Words;
use http_wire::{ByteSink, ByteSource, MemorySink, MemorySource};
use std::alloc::{AllocError, Global};
use std::io;

/// What a command is given beside its disks: its words, one a line, the bytes that it reads, the moments that its clock gives, and how
/// its objects behave.
#[derive(Drop)]
pub struct Given {
    pub words: String,
    pub catalogue: Vec<u8>,
    pub capabilities: Vec<u8>,
    pub input: Vec<u8>,
    pub moments: Vec<u64>,
    pub fakes: Fakes,
}

impl Given {
    /// Whether its words are those that make changes which are marked: a feed's, or a follower's.
    pub fn is_marked(&self) -> bool {
        matches!(self.words.as_str().trim_end(), "feed" | "twin")
    }
}

/// What has to come of a command.
#[derive(Drop)]
pub struct Expected {
    /// The code and the line of its status.
    pub status: String,
    pub output: Vec<u8>,
    /// The bytes with which its disks have to begin.
    pub fronts: Contents,
}

/// What a command came to.
#[derive(Drop)]
pub struct Outcome {
    /// The code and the line of its status.
    pub status: String,
    pub output: Vec<u8>,
    /// Whether a take of the input was due to fail next, and didn't.
    took_more: bool,
    /// Whether a call of another object than the disks failed.
    failed: bool,
    disks: Disks,
    /// How many bytes the disk of the cache has to hold, where that is said.
    length: Option<u64>,
    /// How many bytes that of the marks has to hold.
    marks_length: Option<u64>,
    /// How many bytes that of the outbox has to hold.
    outbox_length: Option<u64>,
}

/// The words of a command, one a line.
fn words_in(alloc: Global, text: &str) -> Result<Vec<Words>, AllocError> {
    let mut words = Vec::new(alloc);
    for line in text.lines() {
        words.push(Words::new(alloc, line.as_bytes())?)?;
    }
    Ok(words)
}

/// A stream of these bytes that behaves so.
fn stream(alloc: Global, bytes: &[u8], fake: &Fake) -> Result<MemorySource, AllocError> {
    let end = usize::try_from(fake.ends).unwrap_or(usize::MAX);
    let bytes = Vec::from_slice(alloc, &bytes[..bytes.len().min(end)])?;
    let fails = Vec::from_slice(alloc, fake.fails.as_slice())?;
    let piece = usize::try_from(fake.piece).unwrap_or(usize::MAX);
    Ok(MemorySource::new(bytes, piece, fails))
}

/// Whether a stream ended before its bytes did, or is past the call that was to fail. Where the run came just before that call, the
/// take that is made here is it.
fn has_faulted(fake: &Fake, stream: &mut MemorySource, bytes: &[u8]) -> bool {
    if fake.ends < bytes.len() as u64 {
        return true;
    }
    if fake.fails.is_empty() {
        return false;
    }
    stream.take(&mut [0]).is_ok()
}

/// Whether a sink is past the call that was to fail.
fn has_refused(fake: &Fake, sink: &mut MemorySink) -> bool {
    if fake.fails.is_empty() {
        return false;
    }
    sink.put(&[0]).is_ok()
}

/// The streams of what a command is given, which behave as these fakes say.
fn streams_of(alloc: Global, given: &Given, fakes: &Fakes) -> Result<Streams, AllocError> {
    Ok(Streams {
        catalogue: stream(alloc, given.catalogue.as_slice(), &fakes.catalogue)?,
        capabilities: stream(alloc, given.capabilities.as_slice(), &fakes.capabilities)?,
        input: stream(alloc, given.input.as_slice(), &fakes.input)?,
    })
}

/// A sink that behaves as these fakes say.
fn sink_of(alloc: Global, fakes: &Fakes) -> Result<MemorySink, AllocError> {
    let fails = Vec::from_slice(alloc, fakes.output.fails.as_slice())?;
    Ok(MemorySink::new(alloc, fails))
}

/// The source of a catalogue's number, which behaves as these fakes say.
fn source_of(alloc: Global, given: &Given, fakes: &Fakes) -> Result<SourceFake, AllocError> {
    let fails = Vec::from_slice(alloc, fakes.source.fails.as_slice())?;
    let number = source_number(alloc, given.catalogue.as_slice())?;
    Ok(SourceFake::new(number, fails))
}

/// The clock of what a command is given.
fn clock_of(alloc: Global, given: &Given) -> Result<Clock, AllocError> {
    let moments = Vec::from_slice(alloc, given.moments.as_slice())?;
    Ok(Clock::listed(moments))
}

impl Streams {
    /// Whether a stream ended too early, or is past the call that was to fail: the input, and any of them.
    fn have_faulted(&mut self, given: &Given, fakes: &Fakes) -> (bool, bool) {
        let took_more = has_faulted(&fakes.input, &mut self.input, given.input.as_slice());
        let catalogue = given.catalogue.as_slice();
        let capabilities = given.capabilities.as_slice();
        let failed = took_more
            || has_faulted(&fakes.catalogue, &mut self.catalogue, catalogue)
            || has_faulted(&fakes.capabilities, &mut self.capabilities, capabilities);
        (took_more, failed)
    }
}

/// What a command came to, but for its disks.
#[derive(Drop)]
struct Told {
    status: String,
    output: Vec<u8>,
    took_more: bool,
    failed: bool,
}

/// What a command came to by this status, which left these objects.
fn told_of(
    alloc: Global,
    status: String,
    (took_more, failed): (bool, bool),
    output: &mut MemorySink,
    source: &SourceFake,
    fakes: &Fakes,
) -> Result<Told, AllocError> {
    let written = Vec::from_slice(alloc, output.taken())?;
    let failed = failed || has_refused(&fakes.output, output) || source.has_failed();
    Ok(Told {
        status,
        output: written,
        took_more,
        failed,
    })
}

/// Runs the command over disks that stay with the caller.
fn told_by(
    alloc: Global,
    given: &Given,
    fakes: &Fakes,
    disks: &mut Disks,
) -> Result<Told, AllocError> {
    let words = words_in(alloc, given.words.as_str())?;
    let clock = clock_of(alloc, given)?;
    let mut output = sink_of(alloc, fakes)?;
    let mut source = source_of(alloc, given, fakes)?;
    let mut streams = streams_of(alloc, given, fakes)?;
    let status = status_by(
        alloc,
        words.as_slice(),
        &mut streams,
        &mut output,
        &mut source,
        disks,
        clock,
    )?;
    let faulted = streams.have_faulted(given, fakes);
    told_of(alloc, status, faulted, &mut output, &source, fakes)
}

/// Runs the command over disks.
pub fn came_to(alloc: Global, given: &Given, disks: Disks) -> io::Result<Outcome> {
    came_to_by(alloc, given, &given.fakes, disks)
}

/// Runs the command over disks, where its other objects behave as these fakes say.
pub fn came_to_by(
    alloc: Global,
    given: &Given,
    fakes: &Fakes,
    disks: Disks,
) -> io::Result<Outcome> {
    let mut disks = disks;
    let told = told_by(alloc, given, fakes, &mut disks)?;
    Ok(Outcome {
        status: told.status,
        output: told.output,
        took_more: fakes.input.fails_next && told.took_more,
        failed: told.failed,
        disks,
        length: fakes.disk.length,
        marks_length: fakes.marks.length,
        outbox_length: fakes.outbox.length,
    })
}

/// How a disk differs from its expected length and from the bytes with which it has to begin.
fn disk_differs(
    alloc: Global,
    name: &str,
    bytes: &[u8],
    length: Option<u64>,
    front: &[u8],
) -> io::Result<Option<String>> {
    let holds = bytes.len() as u64;
    let expected = length.unwrap_or(holds);
    if holds != expected {
        return Ok(Some(format!(in alloc; "the {name} holds {holds} bytes, and not {expected}")?));
    }
    let same = count_same(bytes, front);
    if same < front.len() {
        let at = same.saturating_add(1);
        return Ok(Some(format!(in alloc; "byte {at} of the {name} differs first")?));
    }
    Ok(None)
}

impl Outcome {
    /// How this differs from what is expected; `None` where it doesn't.
    pub fn differs_from(&self, alloc: Global, expected: &Expected) -> io::Result<Option<String>> {
        let came = self.status.as_str().trim_end();
        let status = expected.status.as_str();
        if came != status {
            return Ok(Some(format!(in alloc; "the status is {came}, and not {status}")?));
        }
        let output = expected.output.as_slice();
        if let Some(at) = first_difference(self.output.as_slice(), output) {
            let (wrote, expected) = (self.output.len(), output.len());
            return Ok(Some(format!(in alloc;
                "of {wrote} bytes that were written and {expected} that are expected byte {at} differs first"
            )?));
        }
        if self.took_more {
            return Ok(Some(format!(in alloc;
                "the input was not taken to the call that fails next"
            )?));
        }
        self.disks_differ(alloc, &expected.fronts)
    }

    /// How the disks differ from their expected lengths and from the bytes with which they have to begin.
    fn disks_differ(&self, alloc: Global, fronts: &Contents) -> io::Result<Option<String>> {
        let cache = self.disks.cache.bytes();
        let difference = disk_differs(alloc, "disk", cache, self.length, fronts.cache.as_slice())?;
        if difference.is_some() {
            return Ok(difference);
        }
        let (marks, front) = (self.disks.marks.bytes(), fronts.marks.as_slice());
        let difference = disk_differs(alloc, "disk of the marks", marks, self.marks_length, front)?;
        if difference.is_some() {
            return Ok(difference);
        }
        let (outbox, front) = (self.disks.outbox.bytes(), fronts.outbox.as_slice());
        disk_differs(
            alloc,
            "disk of the outbox",
            outbox,
            self.outbox_length,
            front,
        )
    }

    /// Whether a call of the disk of the marks failed.
    pub fn marks_failed(&self) -> bool {
        self.disks.marks_failed()
    }

    /// Whether a call of the disk of the outbox failed.
    pub fn outbox_failed(&self) -> bool {
        self.disks.outbox_failed()
    }

    /// Whether a call of an object failed.
    pub fn has_failed(&self) -> bool {
        self.failed || self.disks.have_failed()
    }

    /// The bytes that the disks are left with.
    pub fn left(self, alloc: Global, crashes: Crashes) -> Result<Contents, AllocError> {
        let Outcome { disks, .. } = self;
        disks.left(alloc, crashes)
    }
}

/// How many bytes two texts begin with alike.
fn count_same(one: &[u8], other: &[u8]) -> usize {
    one.iter()
        .zip(other.iter())
        .take_while(|(a, b)| a == b)
        .count()
}

/// The place of the first byte in which two texts differ, counted from 1; `None` where they are equal.
fn first_difference(one: &[u8], other: &[u8]) -> Option<usize> {
    if one == other {
        return None;
    }
    Some(count_same(one, other).saturating_add(1))
}
