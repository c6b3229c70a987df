//! How a composition ends, and how that is told to the operator.
ghost use Rattle.std.specs.Prelude.{◌≡◌};
ghost use Rattle.compose_words.specs.Ends.{end_of_lines, end_of_refusal};

use crate::lines::CompositionLinesEnd;
use catalog::CatalogueFault;
use command_setup::Unconfigured;
use command_status::Status;
use layer_recipes::{RecipeFault, RecipeField};
use std::fmt;

/// How a composition ended (`specs/Ends.antt`).
#[derive(Clone, Copy, PartialEq, Eq)]
pub enum ComposeEnd {
    /// The input was read to its end, and each line behind the recipe was answered.
    Done,
    /// The words are no `compose`.
    Usage,
    /// The catalogue has this fault.
    Catalogue(CatalogueFault),
    /// A read of the catalogue or of the input failed.
    ReadFault,
    /// A write of the output failed.
    WriteFault,
    /// This line was refused, counted from 1; the lines before it were answered.
    Line(u64),
    /// The catalogue or the input has more bytes than it may have.
    TooLong,
    /// The first line is no recipe, for this cause, which is not want of memory.
    Recipe(RecipeFault),
    /// Memory ran out.
    OutOfMemory,
}

/// The code that a process ends with whose recipe was refused.
const RECIPE_CODE: u8 = 15;

impl ComposeEnd {
    /// The status of a command that ended so; none for `Recipe`, which no command has.
    pub fn status(&self) -> Option<Status> {
        match self {
            ComposeEnd::Done => Some(Status::Done),
            ComposeEnd::Usage => Some(Status::Usage),
            ComposeEnd::Catalogue(fault) => Some(Status::Catalogue(*fault)),
            ComposeEnd::ReadFault => Some(Status::ReadFault),
            ComposeEnd::WriteFault => Some(Status::WriteFault),
            ComposeEnd::Line(line) => Some(Status::Line(*line)),
            ComposeEnd::TooLong => Some(Status::TooLong),
            ComposeEnd::Recipe(_) => None,
            ComposeEnd::OutOfMemory => Some(Status::OutOfMemory),
        }
    }

    /// The code that the process ends with.
    pub fn code(&self) -> u8 {
        match self.status() {
            Some(status) => status.code(),
            None => RECIPE_CODE,
        }
    }
}

/// The line that tells an end; `Done` has none.
impl fmt::Display for ComposeEnd {
    fn fmt<W: fmt::Write>(&self, f: &mut fmt::Formatter<W>) -> fmt::Result {
        match self {
            ComposeEnd::Recipe(fault) => write_fault(f, *fault),
            other => match other.status() {
                Some(status) => write!(f, "{status}"),
                None => Ok(()),
            },
        }
    }
}

/// Writes a recipe's fault: its kind, its member and the place of the member's part.
fn write_fault<W: fmt::Write>(f: &mut fmt::Formatter<W>, fault: RecipeFault) -> fmt::Result {
    match fault {
        RecipeFault::NotJson => f.write_str("recipe not json  0"),
        RecipeFault::Missing(field, part) => write_placed(f, "missing", field, part),
        RecipeFault::Bad(field, part) => write_placed(f, "bad", field, part),
        RecipeFault::Limit(field, part) => write_placed(f, "limit", field, part),
        RecipeFault::OutOfMemory => f.write_str("out of memory"),
    }
}

/// Writes the kind of a recipe's fault, and what is at fault.
fn write_placed<W: fmt::Write>(
    f: &mut fmt::Formatter<W>,
    kind: &str,
    field: RecipeField,
    part: u32,
) -> fmt::Result {
    write!(f, "recipe {kind} {field:?} {part}")
}

/// The end of a composition whose catalogue was refused.
pub(crate) fn end_of_refusal(refusal: Unconfigured) -> ComposeEnd
    ensures { result ≡ end_of_refusal refusal }
{
    match refusal {
        Unconfigured::ReadFault => ComposeEnd::ReadFault,
        Unconfigured::TooLong => ComposeEnd::TooLong,
        Unconfigured::Fault(fault) => ComposeEnd::Catalogue(fault),
        Unconfigured::OutOfMemory => ComposeEnd::OutOfMemory,
    }
}

/// The end of a composition whose lines ended so.
pub(crate) fn end_of_lines(end: CompositionLinesEnd) -> ComposeEnd
    ensures { result ≡ end_of_lines end }
{
    match end {
        CompositionLinesEnd::Done => ComposeEnd::Done,
        CompositionLinesEnd::Line(n) => ComposeEnd::Line(n),
        CompositionLinesEnd::WriteFault => ComposeEnd::WriteFault,
        CompositionLinesEnd::OutOfMemory => ComposeEnd::OutOfMemory,
    }
}
