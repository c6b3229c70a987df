//! How the objects that a command is handed behave, as the lines of a step's file `fakes` say.
use crate::disk_fake::DiskFake;
use crate::disks::Crashes;
use std::alloc::{AllocError, Global};

/// The most bytes of a take, where a step doesn't say it.
const USUAL_PIECE: u64 = 4_096;

/// How a stream of bytes behaves.
#[derive(Drop)]
pub struct Fake {
    /// The most bytes of a take.
    pub piece: u64,
    /// How often the bytes of its file stand, one after the other.
    pub times: u64,
    /// How many of the bytes there are at most.
    pub ends: u64,
    /// The calls that fail, counted from 1.
    pub fails: Vec<u64>,
    /// Whether the next call after the run has to be a failing one.
    pub fails_next: bool,
}

impl Fake {
    /// A stream of its file's bytes that never fails.
    fn new(alloc: Global) -> Fake {
        Fake {
            piece: USUAL_PIECE,
            times: 1,
            ends: u64::MAX,
            fails: Vec::new(alloc),
            fails_next: false,
        }
    }

    /// Takes in what a line says of the stream, and tells whether it is one that is known.
    fn take_in(&mut self, verb: &str, number: u64) -> Result<bool, AllocError> {
        match verb {
            "pieces" => self.piece = number,
            "times" => self.times = number,
            "ends" => self.ends = number,
            "fails" => self.fails.push(number)?,
            "next" => {
                self.fails.push(number)?;
                self.fails_next = true;
            }
            _ => return Ok(false),
        }
        Ok(true)
    }
}

/// How the objects of a step behave.
#[derive(Drop)]
pub struct Fakes {
    pub catalogue: Fake,
    pub capabilities: Fake,
    pub input: Fake,
    pub output: Fake,
    pub source: Fake,
    pub disk: DiskFake,
    pub marks: DiskFake,
    pub outbox: DiskFake,
    pub expected: Fake,
}

impl Fakes {
    /// Objects of which none fails.
    pub fn new(alloc: Global) -> Fakes {
        Fakes {
            catalogue: Fake::new(alloc),
            capabilities: Fake::new(alloc),
            input: Fake::new(alloc),
            output: Fake::new(alloc),
            source: Fake::new(alloc),
            disk: DiskFake::new(alloc),
            marks: DiskFake::new(alloc),
            outbox: DiskFake::new(alloc),
            expected: Fake::new(alloc),
        }
    }

    /// What a crash leaves of the disks behind the run.
    pub fn crashes(&self) -> Crashes {
        Crashes {
            cache: self.disk.crash,
            marks: self.marks.crash,
            outbox: self.outbox.crash,
        }
    }

    /// What these lines say, each an object, a verb and a number; `None` where one of them isn't of that form.
    pub fn read(alloc: Global, text: &str) -> Result<Option<Fakes>, AllocError> {
        let mut fakes = Fakes::new(alloc);
        if fakes.take_in_all(text)? {
            return Ok(Some(fakes));
        }
        Ok(None)
    }

    /// Takes in these lines, and tells whether each is of the form.
    fn take_in_all(&mut self, text: &str) -> Result<bool, AllocError> {
        for line in text.lines() {
            if !self.take_in_line(line)? {
                return Ok(false);
            }
        }
        Ok(true)
    }

    /// Takes in one line, and tells whether it is of the form.
    fn take_in_line(&mut self, line: &str) -> Result<bool, AllocError> {
        let mut words = line.split(' ');
        let (Some(object), Some(verb), Some(number)) = (words.next(), words.next(), words.next())
        else {
            return Ok(false);
        };
        self.take_in(object, verb, number)
    }

    /// Takes in what a line says of an object, and tells whether it is of the form.
    fn take_in(&mut self, object: &str, verb: &str, number: &str) -> Result<bool, AllocError> {
        let Ok(number) = number.parse::<u64>() else {
            return Ok(false);
        };
        match object {
            "catalogue" => self.catalogue.take_in(verb, number),
            "capabilities" => self.capabilities.take_in(verb, number),
            "input" => self.input.take_in(verb, number),
            "output" => self.output.take_in(verb, number),
            "source" => self.source.take_in(verb, number),
            "disk" => self.disk.take_in(verb, number),
            "marks" => self.marks.take_in(verb, number),
            "outbox" => self.outbox.take_in(verb, number),
            "expected" => self.expected.take_in(verb, number),
            _ => Ok(false),
        }
    }
}
