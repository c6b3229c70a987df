//! A table of faults: a command is run with the first call of an object failing, with the second and so on up to a run without a
//! fault, and each of these runs has to come to what a line of the table says.
use crate::disks::{Contents, Crashes, Disks};
use crate::fakes::Fakes;
use crate::run::{Given, Outcome, came_to_by};
use crate::stops::Table;
use std::alloc::Global;
use std::io;

/// The most calls of an object in a table.
const MOST_CALLS: u64 = 4_096;

/// What a fault of an object may come to.
#[derive(Drop)]
pub struct Line {
    /// The object and the verb of its fault.
    pub fault: String,
    /// Whether it is for all runs by this fault, and has what they write one after the other.
    pub in_order: bool,
    /// The code and the line of the status.
    pub status: String,
    pub written: Vec<u8>,
    /// What the look writes then.
    pub seen: Vec<u8>,
}

/// What a fault came to: the status, what was written, and what the look wrote then.
#[derive(Drop)]
struct Came {
    status: String,
    written: Vec<u8>,
    seen: Vec<u8>,
}

impl Line {
    /// Whether a run came to this. Where the output failed, the front of what is written is enough.
    fn admits(&self, came: &Came) -> bool {
        let written = came.written.as_slice();
        let is_written = if self.fault.as_str().starts_with("output") {
            self.written.as_slice().starts_with(written)
        } else {
            self.written.as_slice() == written
        };
        is_written && self.status == came.status && self.seen == came.seen
    }

    /// What of these bytes stands behind those that a run wrote; `None` where they don't begin with them, or where it came to something else.
    fn behind<'b>(&self, came: &Came, bytes: &'b [u8]) -> Option<&'b [u8]> {
        if self.status != came.status || self.seen != came.seen {
            return None;
        }
        bytes.strip_prefix(came.written.as_slice())
    }
}

/// What a run came to, behind which these crashes leave the disks.
fn came_of(alloc: Global, table: &Table, outcome: Outcome, crashes: Crashes) -> io::Result<Came> {
    let status = String::from_str(alloc, outcome.status.as_str().trim_end())?;
    let written = Vec::from_slice(alloc, outcome.output.as_slice())?;
    let left = outcome.left(alloc, crashes)?;
    Ok(Came {
        status,
        written,
        seen: table.seen_in(alloc, left)?,
    })
}

/// What the command comes to where this line of its fakes is a fault; `None` where no call fails by it, or where it is of another form.
fn came_by(
    alloc: Global,
    given: &Given,
    table: &Table,
    lines: &str,
    contents: &Contents,
) -> io::Result<Option<Came>> {
    let Some(fakes) = Fakes::read(alloc, lines)? else {
        return Ok(None);
    };
    let outcome = came_to_by(alloc, given, &fakes, Disks::faked(alloc, &fakes, contents)?)?;
    let crashes = fakes.crashes();
    drop(fakes);
    if outcome.has_failed() {
        return Ok(Some(came_of(alloc, table, outcome, crashes)?));
    }
    Ok(None)
}

/// What the command comes to where the first call of this fault fails, the second, and so on up to a run without a fault. The other
/// lines of the step's fakes are `rest`.
fn runs_by(
    alloc: Global,
    given: &Given,
    table: &Table,
    fault: &str,
    rest: &str,
    contents: &Contents,
) -> io::Result<Vec<Came>> {
    let mut runs = Vec::new(alloc);
    for call in 1..MOST_CALLS {
        let fakes = format!(in alloc; "{fault} {call}\n{rest}")?;
        match came_by(alloc, given, table, fakes.as_str(), contents)? {
            Some(came) => runs.push(came)?,
            None => return Ok(runs),
        }
    }
    Ok(runs)
}

/// Whether one of the lines for this fault admits a run.
fn is_admitted(lines: &[Line], fault: &str, came: &Came) -> bool {
    lines
        .iter()
        .any(|line| line.fault.as_str() == fault && line.admits(came))
}

/// The number of the first run that no line for this fault admits, counted from 1.
fn first_strange(lines: &[Line], fault: &str, runs: &[Came]) -> Option<usize> {
    let place = runs
        .iter()
        .position(|came| !is_admitted(lines, fault, came))?;
    Some(place.saturating_add(1))
}

/// The number of the first line for this fault that admits no run, counted from 1.
fn first_unmet(lines: &[Line], fault: &str, runs: &[Came]) -> Option<usize> {
    let place = lines.iter().position(|line| {
        line.fault.as_str() == fault && !runs.iter().any(|came| line.admits(came))
    })?;
    Some(place.saturating_add(1))
}

/// The line for this fault that is for all of its runs.
fn line_of_all<'l>(lines: &'l [Line], fault: &str) -> Option<&'l Line> {
    lines
        .iter()
        .find(|line| line.in_order && line.fault.as_str() == fault)
}

/// How the runs by a fault differ from a line that is for all of them; `None` where they don't.
fn differs_in_order(alloc: Global, line: &Line, runs: &[Came]) -> io::Result<Option<String>> {
    let fault = line.fault.as_str();
    let mut rest = line.written.as_slice();
    for (place, came) in runs.iter().enumerate() {
        let call = place.saturating_add(1);
        let Some(behind) = line.behind(came, rest) else {
            return Ok(Some(format!(in alloc; "{fault} {call} comes to something else")?));
        };
        rest = behind;
    }
    if rest.is_empty() {
        return Ok(None);
    }
    Ok(Some(format!(in alloc; "{fault} has fewer runs than its line")?))
}

/// How the runs by a fault differ from the lines for it; `None` where each run is as a line says, and each line is met.
fn differs_by(
    alloc: Global,
    lines: &[Line],
    fault: &str,
    runs: &[Came],
) -> io::Result<Option<String>> {
    if let Some(line) = line_of_all(lines, fault) {
        return differs_in_order(alloc, line, runs);
    }
    if let Some(call) = first_strange(lines, fault, runs) {
        return Ok(Some(format!(in alloc; "no line has what {fault} {call} comes to")?));
    }
    if let Some(number) = first_unmet(lines, fault, runs) {
        return Ok(Some(format!(in alloc; "no {fault} comes to line {number} of its faults")?));
    }
    Ok(None)
}

/// Whether one of these lines is for this fault.
fn has_fault(lines: &[Line], fault: &str) -> bool {
    lines.iter().any(|line| line.fault.as_str() == fault)
}

/// How the command differs from the lines of its table; `None` where it doesn't.
pub fn differs_from(
    alloc: Global,
    given: &Given,
    table: &Table,
    lines: &[Line],
    rest: &str,
    contents: &Contents,
) -> io::Result<Option<String>> {
    for (place, line) in lines.iter().enumerate() {
        let fault = line.fault.as_str();
        let (before, _) = lines.split_at(place.min(lines.len()));
        if has_fault(before, fault) {
            continue;
        }
        let runs = runs_by(alloc, given, table, fault, rest, contents)?;
        let difference = differs_by(alloc, lines, fault, runs.as_slice())?;
        if difference.is_some() {
            return Ok(difference);
        }
    }
    Ok(None)
}
