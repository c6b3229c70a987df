//! A step: the files that say what a command is given and what has to come of it.
use crate::disks::{Contents, Disks};
use crate::fakes::Fakes;
use crate::faults;
use crate::faults::Line;
use crate::files::{own, own_often, shared, text};
use crate::folders::bytes_of;
use crate::giving::given_of;
use crate::run::{Expected, Given, Outcome, came_to};
use crate::stops::Table;
use std::alloc::{AllocError, Global};
use std::fs::File;
use std::io;
use std::rt::Files;

/// The most images of a table of stops.
const MOST_IMAGES: u32 = 1_000;

/// What came of a step.
#[derive(Drop)]
pub struct Ran {
    /// How it differs from what its files expect; `None` where it doesn't.
    pub difference: Option<String>,
    /// The bytes that its disks are left with.
    pub left: Contents,
}

/// The status that a step has to come to.
fn status_of<R: Files<File = File> + AllocGlobal>(
    rt: &R,
    case: &str,
    step: &str,
) -> io::Result<String> {
    let told = text(rt, case, step, "status")?;
    let status = match told.as_str().trim_end() {
        "" => "0",
        status => status,
    };
    Ok(String::from_str(rt.alloc(), status)?)
}

/// What has to be written in a step: its output so many times, and its ending.
fn output_of<R: Files<File = File> + AllocGlobal>(
    rt: &R,
    case: &str,
    step: &str,
    times: u64,
) -> io::Result<Vec<u8>> {
    let ending = own(rt, case, step, "ending")?;
    let mut output = own_often(rt, case, step, "output", times)?;
    output.extend_from_slice(ending.as_slice())?;
    Ok(output)
}

/// The bytes with which the disks of a step have to begin behind it.
fn fronts_of<R: Files<File = File> + AllocGlobal>(
    rt: &R,
    case: &str,
    step: &str,
) -> io::Result<Contents> {
    Ok(Contents {
        cache: own(rt, case, step, "disk_front")?,
        marks: own(rt, case, step, "marks_front")?,
        outbox: own(rt, case, step, "outbox_front")?,
    })
}

/// What has to come of a step, whose output stands so many times.
fn expected_of<R: Files<File = File> + AllocGlobal>(
    rt: &R,
    case: &str,
    step: &str,
    times: u64,
) -> io::Result<Expected> {
    Ok(Expected {
        status: status_of(rt, case, step)?,
        output: output_of(rt, case, step, times)?,
        fronts: fronts_of(rt, case, step)?,
    })
}

/// The images of a step, as its files `image_1`, `image_2` and so on have them.
fn images_of<R: Files<File = File> + AllocGlobal>(
    rt: &R,
    case: &str,
    step: &str,
) -> io::Result<Vec<Vec<u8>>> {
    let mut images = Vec::new(rt.alloc());
    for number in 1..MOST_IMAGES {
        let path = format!(in rt.alloc(); "{case}/{step}/image_{number}")?;
        match bytes_of(rt, path.as_str())? {
            Some(image) => images.push(image)?,
            None => return Ok(images),
        }
    }
    Ok(images)
}

/// For how many truncations each image of a step answers, as the lines of its file `cuts` have them; a line that is no number is none.
fn cuts_of<R: Files<File = File> + AllocGlobal>(
    rt: &R,
    case: &str,
    step: &str,
) -> io::Result<Vec<u64>> {
    let mut cuts = Vec::new(rt.alloc());
    let all = text(rt, case, step, "cuts")?;
    for line in all.as_str().lines() {
        cuts.push(line.parse::<u64>().unwrap_or(0))?;
    }
    Ok(cuts)
}

/// The words of the command that looks at what a step leaves.
fn look_words_of<R: Files<File = File> + AllocGlobal>(
    rt: &R,
    case: &str,
    step: &str,
) -> io::Result<String> {
    let told = text(rt, case, step, "look")?;
    let words = match told.as_str() {
        "" => "usage",
        words => words,
    };
    Ok(String::from_str(rt.alloc(), words)?)
}

/// What the command that looks at what a step leaves is given: the same documents as the step's own.
fn look_of<R: Files<File = File> + AllocGlobal>(
    rt: &R,
    case: &str,
    step: &str,
    given: &Given,
) -> io::Result<Given> {
    let alloc = rt.alloc();
    Ok(Given {
        words: look_words_of(rt, case, step)?,
        catalogue: Vec::from_slice(alloc, given.catalogue.as_slice())?,
        capabilities: Vec::from_slice(alloc, given.capabilities.as_slice())?,
        input: own(rt, case, step, "look_input")?,
        moments: Vec::new(alloc),
        fakes: Fakes::new(alloc),
    })
}

/// The table of stops of a step, whose look is given the same documents. It has no image where the step has none.
fn table_of<R: Files<File = File> + AllocGlobal>(
    rt: &R,
    case: &str,
    step: &str,
    given: &Given,
) -> io::Result<Table> {
    Ok(Table {
        look: look_of(rt, case, step, given)?,
        images: images_of(rt, case, step)?,
        cuts: cuts_of(rt, case, step)?,
    })
}

/// A line of a table of faults: an object, the verb of its fault, the names of two files, with what is written and with what the look
/// then writes, and behind a colon the status. The verb `each` is `fails`, and the first file has what all runs write. `None` where the
/// line is of another form.
fn line_of<R: Files<File = File> + AllocGlobal>(
    rt: &R,
    case: &str,
    step: &str,
    line: &str,
) -> io::Result<Option<Line>> {
    let alloc = rt.alloc();
    let Some((front, status)) = line.split_once(": ") else {
        return Ok(None);
    };
    let mut words = front.split(' ');
    let (Some(object), Some(verb), Some(written), Some(seen)) = (
        words.next(),
        words.next(),
        words.next(),
        words.next(),
    ) else {
        return Ok(None);
    };
    let in_order = verb == "each";
    let verb = if in_order { "fails" } else { verb };
    Ok(Some(Line {
        fault: format!(in alloc; "{object} {verb}")?,
        in_order,
        status: String::from_str(alloc, status)?,
        written: shared(rt, case, step, written)?,
        seen: shared(rt, case, step, seen)?,
    }))
}

/// The lines of a step's table of faults, as its file `faults` has them; `None` where one of them is of another form.
fn lines_of<R: Files<File = File> + AllocGlobal>(
    rt: &R,
    case: &str,
    step: &str,
) -> io::Result<Option<Vec<Line>>> {
    let mut lines = Vec::new(rt.alloc());
    let all = text(rt, case, step, "faults")?;
    for line in all.as_str().lines() {
        let Some(line) = line_of(rt, case, step, line)? else {
            return Ok(None);
        };
        lines.push(line)?;
    }
    Ok(Some(lines))
}

/// What a step's one run, its table of stops and its table of faults have to come to.
#[derive(Drop)]
struct Wanted {
    expected: Expected,
    table: Table,
    lines: Vec<Line>,
}

/// What the files of a step say.
#[derive(Drop)]
struct Plan {
    given: Given,
    wanted: Wanted,
    /// The lines of its fakes.
    rest: String,
}

/// What is wanted of a step that gives this.
fn wanted_of<R: Files<File = File> + AllocGlobal>(
    rt: &R,
    case: &str,
    step: &str,
    given: &Given,
    lines: Vec<Line>,
) -> io::Result<Wanted> {
    Ok(Wanted {
        expected: expected_of(rt, case, step, given.fakes.expected.times)?,
        table: table_of(rt, case, step, given)?,
        lines,
    })
}

/// The plan of a step that gives this.
fn plan_with<R: Files<File = File> + AllocGlobal>(
    rt: &R,
    case: &str,
    step: &str,
    given: Given,
    lines: Vec<Line>,
) -> io::Result<Plan> {
    let rest = text(rt, case, step, "fakes")?;
    let wanted = wanted_of(rt, case, step, &given, lines)?;
    Ok(Plan {
        given,
        wanted,
        rest,
    })
}

/// The plan of a step; which of its files isn't of its form, where one isn't.
fn plan_of<R: Files<File = File> + AllocGlobal>(
    rt: &R,
    case: &str,
    step: &str,
) -> io::Result<Result<Plan, &'static str>> {
    let Some(lines) = lines_of(rt, case, step)? else {
        return Ok(Err("its file faults has a line of another form"));
    };
    match given_of(rt, case, step)? {
        Ok(given) => Ok(Ok(plan_with(rt, case, step, given, lines)?)),
        Err(fault) => Ok(Err(fault)),
    }
}

impl Plan {
    /// How what the step gives differs from what is wanted of it, where its own run came to this.
    fn difference_of(
        &self,
        alloc: Global,
        outcome: &Outcome,
        contents: &Contents,
    ) -> io::Result<Option<String>> {
        let wanted = &self.wanted;
        let difference = outcome.differs_from(alloc, &wanted.expected)?;
        if difference.is_some() {
            return Ok(difference);
        }
        let difference = wanted.table.difference_of(alloc, &self.given, contents)?;
        if difference.is_some() {
            return Ok(difference);
        }
        let (lines, rest) = (wanted.lines.as_slice(), self.rest.as_str());
        faults::differs_from(alloc, &self.given, &wanted.table, lines, rest, contents)
    }

    /// Runs what the step gives over disks of these bytes, and tells what came of it.
    fn ran(&self, alloc: Global, contents: &Contents) -> io::Result<Ran> {
        let fakes = &self.given.fakes;
        let outcome = came_to(alloc, &self.given, Disks::faked(alloc, fakes, contents)?)?;
        let difference = self.difference_of(alloc, &outcome, contents)?;
        Ok(Ran {
            difference,
            left: outcome.left(alloc, fakes.crashes())?,
        })
    }
}

/// What came of a step one of whose files isn't of its form; the disks stay.
fn unread(alloc: Global, left: Contents, fault: &str) -> Result<Ran, AllocError> {
    Ok(Ran {
        difference: Some(String::from_str(alloc, fault)?),
        left,
    })
}

/// The bytes of a step's own file, or else these.
fn own_or<R: Files<File = File> + AllocGlobal>(
    rt: &R,
    case: &str,
    step: &str,
    name: &str,
    left: Vec<u8>,
) -> io::Result<Vec<u8>> {
    let path = format!(in rt.alloc(); "{case}/{step}/{name}")?;
    Ok(bytes_of(rt, path.as_str())?.unwrap_or(left))
}

/// The disks that a step's own files have, or else those that the step before it left.
fn contents_of<R: Files<File = File> + AllocGlobal>(
    rt: &R,
    case: &str,
    step: &str,
    left: Contents,
) -> io::Result<Contents> {
    let Contents {
        cache,
        marks,
        outbox,
    } = left;
    Ok(Contents {
        cache: own_or(rt, case, step, "disk", cache)?,
        marks: own_or(rt, case, step, "marks", marks)?,
        outbox: own_or(rt, case, step, "outbox", outbox)?,
    })
}

/// Runs a step over the disks that its own files have, or else over those that the step before it left.
pub fn run_step<R: Files<File = File> + AllocGlobal>(
    rt: &R,
    case: &str,
    step: &str,
    left: Contents,
) -> io::Result<Ran> {
    let contents = contents_of(rt, case, step, left)?;
    match plan_of(rt, case, step)? {
        Ok(plan) => plan.ran(rt.alloc(), &contents),
        Err(fault) => Ok(unread(rt.alloc(), contents, fault)?),
    }
}
