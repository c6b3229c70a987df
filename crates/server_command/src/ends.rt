//! How a server ends, and how that is told to the operator.
ghost use Rattle.std.specs.Prelude.{◌≡◌};
ghost use Rattle.server_command.specs.Ends.{end_of_recipes, status_of_service};

use crate::recipes::UnreadRecipes;
use command_status::Status;
use layer_recipes::{BookFault, RecipeFault, RecipeField};
use server_workers::ServiceEnd;
use std::fmt;

/// How a server ended (`specs/Served.antt`).
#[derive(Clone, Copy, PartialEq, Eq)]
pub enum ServerEnd {
    /// With a status that commands have too.
    Ended(Status),
    /// Its recipes have this fault, which isn't want of memory. The listener was asked for no link.
    Recipes(BookFault),
}

/// The code that a process ends with whose recipe was refused.
const RECIPE_CODE: u8 = 15;

impl ServerEnd {
    /// The code that the process ends with.
    pub fn code(&self) -> u8 {
        match self {
            ServerEnd::Ended(status) => status.code(),
            ServerEnd::Recipes(_) => RECIPE_CODE,
        }
    }
}

/// The line that tells an end; `Done` has none.
impl fmt::Display for ServerEnd {
    fn fmt<W: fmt::Write>(&self, f: &mut fmt::Formatter<W>) -> fmt::Result {
        match self {
            ServerEnd::Ended(status) => write!(f, "{status}"),
            ServerEnd::Recipes(fault) => write_fault(f, *fault),
        }
    }
}

/// Writes the fault of a server's recipes: the place of the recipe in the text, and what is at fault.
fn write_fault<W: fmt::Write>(f: &mut fmt::Formatter<W>, fault: BookFault) -> fmt::Result {
    match fault {
        BookFault::NotJson => f.write_str("recipes not json"),
        BookFault::Limit => f.write_str("recipes limit"),
        BookFault::Name(at) => write!(f, "recipes {at} bad Name"),
        BookFault::Recipe(at, fault) => write_recipe(f, at, fault),
        BookFault::OutOfMemory => f.write_str("out of memory"),
    }
}

/// Writes the fault of the recipe at a place: its kind, its member and the place of the member's part.
fn write_recipe<W: fmt::Write>(
    f: &mut fmt::Formatter<W>,
    at: u32,
    fault: RecipeFault,
) -> fmt::Result {
    match fault {
        RecipeFault::NotJson => write!(f, "recipes {at} not json"),
        RecipeFault::Missing(field, part) => write_placed(f, at, "missing", field, part),
        RecipeFault::Bad(field, part) => write_placed(f, at, "bad", field, part),
        RecipeFault::Limit(field, part) => write_placed(f, at, "limit", field, part),
        RecipeFault::OutOfMemory => f.write_str("out of memory"),
    }
}

/// Writes where the recipe stands, the kind of its fault, and what is at fault.
fn write_placed<W: fmt::Write>(
    f: &mut fmt::Formatter<W>,
    at: u32,
    kind: &str,
    field: RecipeField,
    part: u32,
) -> fmt::Result {
    write!(f, "recipes {at} {kind} {field:?} {part}")
}

/// The status of a server whose links were served over its hall.
pub(crate) fn status_of_service(end: ServiceEnd) -> Status
    ensures { result ≡ status_of_service end }
{
    match end {
        ServiceEnd::Done => Status::Done,
        ServiceEnd::ListenFault => Status::ListenFault,
        ServiceEnd::OutOfMemory => Status::OutOfMemory,
        ServiceEnd::NoThreads => Status::ThreadFault,
    }
}

/// The end of a server whose recipes were not read.
pub fn end_of_recipes(refusal: UnreadRecipes) -> ServerEnd
    ensures { result ≡ end_of_recipes refusal }
{
    match refusal {
        UnreadRecipes::ReadFault => ServerEnd::Ended(Status::ReadFault),
        UnreadRecipes::TooLong => ServerEnd::Ended(Status::TooLong),
        UnreadRecipes::Fault(fault) => ServerEnd::Recipes(fault),
        UnreadRecipes::OutOfMemory => ServerEnd::Ended(Status::OutOfMemory),
    }
}
