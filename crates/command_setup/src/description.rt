//! The capabilities document that a command serves, read as it is.
ghost use Rattle.std.specs.Prelude.{◌≡◌};
ghost use Rattle.command_setup.specs.Setup.{Describes};
ghost use Rattle.sessions.specs.Outside.{InputChange};

use exact_ratio::Words;
use http_wire::{ByteSource, InputEnd, read_all};
use std::alloc::Global;

/// The most bytes of the capabilities document.
const CAPABILITIES_LIMIT: usize = 4_194_304;

/// Reads the capabilities document, as it is.
pub fn read_description<I: ByteSource>(alloc: Global, input: &mut I) -> Result<Words, InputEnd>
    ensures { Describes (record { reads = record { before = I.faults input.old; after = I.faults input.new }; from = I.left input.old; to = I.left input.new }) result }
{
    match read_all(alloc, input, CAPABILITIES_LIMIT) {
        Ok(text) => Ok(Words::of(text)),
        Err(end) => Err(end),
    }
}
