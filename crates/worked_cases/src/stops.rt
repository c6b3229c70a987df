//! A table of stops: a command is run with its disks stopped after 0, 1, 2 and so on calls, or with one call failing alone, and what a
//! crash then leaves is looked at: it has to be one of the images of the table, and one that answers for each truncation that the stopped
//! command had written. Each number of calls of the cache's disk is run with each one of that of the marks, and these with each one of
//! that of the outbox.
use crate::acknowledged::Bounds;
use crate::disk_fake::number_of;
use crate::disks::{Contents, Crashes, Disks};
use crate::run::{Given, came_to};
use disk_model::Pick;
use fixtures::SilentDisk;
use std::alloc::{AllocError, Global};
use std::io;

/// The most runs of a table.
const MOST_RUNS: u64 = 65_536;

/// What may be found where the disk of a command fails.
#[derive(Drop)]
pub struct Table {
    /// The command that looks at what a crash leaves.
    pub look: Given,
    /// What it may write; where the disk didn't fail, the last of these.
    pub images: Vec<Vec<u8>>,
    /// For how many of the command's truncations each image answers; any number where it isn't said.
    pub cuts: Vec<u64>,
}

/// How many calls of each disk succeed before one fails.
#[derive(Clone, Copy)]
struct Stops {
    cache: u64,
    marks: u64,
    outbox: u64,
}

/// What a crash leaves of a run.
#[derive(Drop)]
struct Left {
    contents: Contents,
    /// Whether no call of an object failed.
    whole: bool,
    /// Whether a call of the disk of the marks failed.
    marks_failed: bool,
    /// Whether a call of the disk of the outbox failed.
    outbox_failed: bool,
    /// For how many truncations it has to answer.
    bounds: Bounds,
}

impl Stops {
    /// The stops that are tried behind a run; `None` where it had no fault.
    fn after(self, run: &Left) -> Option<Stops> {
        let Stops {
            cache,
            marks,
            outbox,
        } = self;
        if run.outbox_failed {
            return Some(Stops {
                outbox: outbox.saturating_add(1),
                ..self
            });
        }
        if run.marks_failed {
            return Some(Stops {
                cache,
                marks: marks.saturating_add(1),
                outbox: 0,
            });
        }
        if run.whole {
            return None;
        }
        Some(Stops {
            cache: cache.saturating_add(1),
            marks: 0,
            outbox: 0,
        })
    }
}

/// A disk of these bytes, of which the call behind so many fails, alone or with each one behind it.
fn failing(alloc: Global, bytes: &[u8], calls: u64, alone: bool) -> Result<SilentDisk, AllocError> {
    let mut fails = Vec::new(alloc);
    fails.push(calls.saturating_add(1))?;
    let mut disk = SilentDisk::new(alloc, Vec::from_slice(alloc, bytes)?, fails);
    if !alone {
        disk.stop_after(calls);
    }
    Ok(disk)
}

/// The disks of a command, which fail behind so many calls.
fn failing_all(
    alloc: Global,
    given: &Given,
    contents: &Contents,
    stops: Stops,
) -> Result<Disks, AllocError> {
    let (cache, marks) = (contents.cache.as_slice(), contents.marks.as_slice());
    let outbox = contents.outbox.as_slice();
    let fakes = &given.fakes;
    Ok(Disks {
        cache: failing(alloc, cache, stops.cache, fakes.disk.alone)?,
        marks: failing(alloc, marks, stops.marks, fakes.marks.alone)?,
        outbox: failing(alloc, outbox, stops.outbox, fakes.outbox.alone)?,
    })
}

/// What is said of a run, stopped so, behind which no image has what a crash leaves.
fn strange(alloc: Global, stops: Stops, bounds: Bounds, pick: Pick) -> io::Result<String> {
    let Stops {
        cache,
        marks,
        outbox,
    } = stops;
    let kind = number_of(pick);
    let least = bounds.least;
    Ok(format!(in alloc;
        "where the disk fails after {cache} calls, that of the marks after {marks} and that of the outbox after {outbox}, with {least} truncations written as done, a crash of kind {kind} leaves what no image has that answers for them"
    )?)
}

impl Table {
    /// Whether the image at this place answers for as many truncations as it has to.
    fn answers_for(&self, at: usize, bounds: Bounds) -> bool {
        self.cuts.get(at).is_none_or(|cuts| bounds.admit(*cuts))
    }

    /// Whether the look may write this behind a run, and answer for so many truncations.
    fn admits(&self, seen: &[u8], whole: bool, bounds: Bounds) -> bool {
        let first = if whole {
            self.images.len().saturating_sub(1)
        } else {
            0
        };
        for at in first..self.images.len() {
            if self.images[at].as_slice() == seen && self.answers_for(at, bounds) {
                return true;
            }
        }
        false
    }

    /// What the look writes where the disks are left so.
    pub fn seen_in(&self, alloc: Global, contents: Contents) -> io::Result<Vec<u8>> {
        let outcome = came_to(alloc, &self.look, Disks::of(alloc, contents))?;
        Ok(Vec::from_slice(alloc, outcome.output.as_slice())?)
    }

    /// What a crash of the disks leaves where they fail behind so many calls of a command.
    fn left_after(
        &self,
        alloc: Global,
        given: &Given,
        contents: &Contents,
        stops: Stops,
        pick: Pick,
    ) -> io::Result<Left> {
        let outcome = came_to(alloc, given, failing_all(alloc, given, contents, stops)?)?;
        let whole = !outcome.has_failed();
        let marks_failed = outcome.marks_failed();
        let outbox_failed = outcome.outbox_failed();
        let bounds = Bounds::of(given, &self.look, outcome.output.as_slice());
        Ok(Left {
            contents: outcome.left(alloc, Crashes::all(pick))?,
            whole,
            marks_failed,
            outbox_failed,
            bounds,
        })
    }

    /// The stops that are tried behind a run with these; or how what a crash by this pick leaves of that run differs from what it may leave.
    fn tried(
        &self,
        alloc: Global,
        given: &Given,
        contents: &Contents,
        stops: Stops,
        pick: Pick,
    ) -> io::Result<Result<Option<Stops>, String>> {
        let left = self.left_after(alloc, given, contents, stops, pick)?;
        let (next, whole, bounds) = (stops.after(&left), left.whole, left.bounds);
        let Left { contents, .. } = left;
        let seen = self.seen_in(alloc, contents)?;
        if self.admits(seen.as_slice(), whole, bounds) {
            return Ok(Ok(next));
        }
        Ok(Err(strange(alloc, stops, bounds, pick)?))
    }

    /// How what crashes by this pick leave differs from what they may leave; `None` where it doesn't.
    fn differs_by(
        &self,
        alloc: Global,
        given: &Given,
        contents: &Contents,
        pick: Pick,
    ) -> io::Result<Option<String>> {
        let mut stops = Stops {
            cache: 0,
            marks: 0,
            outbox: 0,
        };
        for _ in 0..MOST_RUNS {
            stops = match self.tried(alloc, given, contents, stops, pick)? {
                Ok(Some(next)) => next,
                Ok(None) => return Ok(None),
                Err(difference) => return Ok(Some(difference)),
            };
        }
        Ok(Some(format!(in alloc; "the disks are called more often than a table may")?))
    }

    /// How the command differs from the table; `None` where it doesn't, or where the table has no image.
    pub fn difference_of(
        &self,
        alloc: Global,
        given: &Given,
        contents: &Contents,
    ) -> io::Result<Option<String>> {
        if self.images.is_empty() {
            return Ok(None);
        }
        for pick in [Pick::Old, Pick::New, Pick::Noise] {
            let difference = self.differs_by(alloc, given, contents, pick)?;
            if difference.is_some() {
                return Ok(difference);
            }
        }
        Ok(None)
    }
}
