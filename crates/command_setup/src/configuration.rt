//! The catalogue that a command works on, read from its file.
ghost use Rattle.std.specs.Prelude.{◌≡◌, IfOk};
ghost use Rattle.catalog.specs.Valid.{IsValid};
ghost use Rattle.command_setup.specs.Setup.{Configures, Comes, source_of};
ghost use Rattle.config_text.specs.Text.{catalogue_of};
ghost use Rattle.sessions.specs.Outside.{InputChange};

use catalog::{Catalogue, CatalogueFault};
use config_text::read_catalogue;
use http_wire::{ByteSource, InputEnd, read_all};
use std::alloc::{AllocError, Global};

/// The most bytes of a catalogue.
pub const CATALOGUE_LIMIT: usize = 1_048_576;

/// Why there is no catalogue.
#[derive(Clone, Copy, PartialEq, Eq)]
pub enum Unconfigured {
    /// A read of it failed.
    ReadFault,
    /// It has more bytes than a catalogue may have.
    TooLong,
    /// The first fault of its text.
    Fault(CatalogueFault),
    /// Memory ran out.
    OutOfMemory,
}

/// The catalogue of a text, or its first fault.
#[tactic(auto, using(crate::proofs::Reading::told))]
fn catalogue_in(alloc: Global, text: &[u8]) -> Result<Catalogue, Unconfigured>
    ensures comes { Comes result (catalogue_of text.now) }
    ensures valid { IfOk result (λ c. IsValid c) }
{
    match read_catalogue(alloc, text) {
        Ok(catalogue) => Ok(catalogue),
        Err(CatalogueFault::OutOfMemory) => Err(Unconfigured::OutOfMemory),
        Err(fault) => Err(Unconfigured::Fault(fault)),
    }
}

/// The number of the source in the catalogue of this text; 0 where the text is refused. `AllocError` where memory runs out: no number then
/// stands in for it, since a source of another number makes other pictures.
pub fn source_number(alloc: Global, text: &[u8]) -> Result<u32, AllocError>
    ensures { IfOk result (λ number. number ≡ source_of (catalogue_of text.now)) }
{
    match catalogue_in(alloc, text) {
        Ok(catalogue) => Ok(catalogue.source),
        Err(Unconfigured::Fault(_)) => Ok(0),
        Err(_) => Err(AllocError),
    }
}

/// Reads the catalogue that a command works on.
pub fn read_configuration<I: ByteSource>(
    alloc: Global,
    input: &mut I,
) -> Result<Catalogue, Unconfigured>
    ensures configures { Configures (record { reads = record { before = I.faults input.old; after = I.faults input.new }; from = I.left input.old; to = I.left input.new }) result }
    ensures valid { IfOk result (λ c. IsValid c) }
{
    match read_all(alloc, input, CATALOGUE_LIMIT) {
        Ok(text) => catalogue_in(alloc, text.as_slice()),
        Err(InputEnd::ReadFault) => Err(Unconfigured::ReadFault),
        Err(InputEnd::TooLong) => Err(Unconfigured::TooLong),
        Err(InputEnd::OutOfMemory) => Err(Unconfigured::OutOfMemory),
    }
}
