//! What messages ask for, and the ways in which a tile is asked for.
ghost use Rattle.std.specs.Prelude.{◌≡◌};
ghost use Rattle.tile_requests.specs.Requests.{outcome_of};
ghost use Rattle.tile_requests.specs.Served.{outcome_of_get};

use crate::outcome::{Outcome, Plain};
use cache_access::GetFault;
use cache_core::{Tile, TileOutcome};
use exception_report::{Code, Locator};
use job_forms::JobFault;
use matrix_geometry::Address;
use truncation_list::Cover;

/// What is asked for.
#[derive(Drop)]
pub enum Request {
    /// A tile of the catalogue.
    Tile(Address),
    /// The capabilities document.
    Capabilities,
    /// What the reading of the request refuses.
    Refused(Code, Locator),
    /// Its path leads nowhere.
    NotFound,
    /// Its path takes another method.
    WrongMethod,
    /// What is kept, and how many truncations are in force.
    Usage,
    /// A truncation by a cover of the catalogue.
    Truncation(Cover),
    /// A truncation by a text that is no cover.
    Unformed(JobFault),
    /// An expiry.
    Expiry,
}

/// How a tile is asked for.
#[derive(Clone, Copy, PartialEq, Eq)]
pub enum Mode {
    /// The render and the finish follow in the same line, where no other render of the metatile runs.
    Gets,
    /// The ask alone.
    Asks,
    /// A force of a render alone.
    Forces,
}

/// The outcome of a request for a tile as that of a request.
pub fn outcome_of(outcome: TileOutcome) -> Outcome
    ensures { result ≡ outcome_of outcome }
{
    match outcome {
        TileOutcome::Tile(Tile { hit, number, bytes }) => Outcome::Tile(hit, number, bytes),
        TileOutcome::SourceFailed => Outcome::SourceFailed,
        TileOutcome::Spent => Outcome::Plain(Plain::Spent),
        TileOutcome::NoMemory => Outcome::Plain(Plain::NoMemory),
    }
}

/// The outcome of a request for a tile whose get came to this.
pub fn outcome_of_get(got: Result<Tile, GetFault>) -> Outcome
    ensures { result ≡ outcome_of_get got }
{
    match got {
        Ok(tile) => outcome_of(TileOutcome::Tile(tile)),
        Err(GetFault::SourceFault) => Outcome::SourceFailed,
        Err(GetFault::Spent) => Outcome::Plain(Plain::Spent),
        Err(GetFault::OutOfMemory) => Outcome::Plain(Plain::NoMemory),
    }
}
