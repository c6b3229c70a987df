//! What a command works with, made ready: the catalogue and the capabilities document are read, and a cabinet in memory is made.
ghost use Rattle.std.specs.Prelude.{◌≡◌, IfErr, IfOk};
ghost use Rattle.cabinet.specs.State.{fresh_state};
ghost use Rattle.catalog.specs.Valid.{IsValid};
ghost use Rattle.command_setup.specs.Setup.{AreRead, IsPrepared, IsRefused, refusal_of};
ghost use Rattle.sessions.specs.Outside.{InputChange};
ghost use Rattle.tile_service.specs.Session.{IsAtRest};

use crate::configuration::{Unconfigured, read_configuration};
use crate::description::read_description;
use base::Clock;
use cabinet::Cabinet;
use catalog::Catalogue;
use exact_ratio::Words;
use http_wire::{ByteSource, InputEnd};
use std::alloc::{AllocError, Global};
use tile_requests::Tables;
use tile_service::Counter;

/// A cabinet in memory of a catalogue with a clock, beside the capabilities document.
fn counter_of(
    alloc: Global,
    catalogue: Catalogue,
    capabilities: Words,
    clock: Clock,
) -> Result<Counter<Cabinet>, AllocError>
    requires { IsValid catalogue }
    ensures { IfOk result (λ c. (c.cabinet ≡ fresh_state catalogue clock) × (c.capabilities ≡ capabilities)) }
{
    let cabinet = Cabinet::memory(alloc, catalogue, clock)?;
    let Ok(tables) = Tables::new(alloc) else {
        drop(cabinet);
        return Err(AllocError);
    };
    Ok(Counter {
        cabinet,
        tables,
        capabilities,
    })
}

/// What is refused where a read of the capabilities document ended so.
fn refusal_of(end: InputEnd) -> Unconfigured
    ensures { result ≡ refusal_of end }
{
    match end {
        InputEnd::ReadFault => Unconfigured::ReadFault,
        InputEnd::TooLong => Unconfigured::TooLong,
        InputEnd::OutOfMemory => Unconfigured::OutOfMemory,
    }
}

/// The catalogue that is read, and the capabilities document, which is read after it.
pub fn both_read<I: ByteSource>(
    alloc: Global,
    catalogue: &mut I,
    capabilities: &mut I,
) -> Result<(Catalogue, Words), Unconfigured>
    ensures read { IfOk result (λ both. AreRead
        (record { reads = record { before = I.faults catalogue.old; after = I.faults catalogue.new }; from = I.left catalogue.old; to = I.left catalogue.new })
        (record { reads = record { before = I.faults capabilities.old; after = I.faults capabilities.new }; from = I.left capabilities.old; to = I.left capabilities.new })
        both.0 both.1) }
    ensures refused { IfErr result (λ refusal. IsRefused
        (record { reads = record { before = I.faults catalogue.old; after = I.faults catalogue.new }; from = I.left catalogue.old; to = I.left catalogue.new })
        (record { reads = record { before = I.faults capabilities.old; after = I.faults capabilities.new }; from = I.left capabilities.old; to = I.left capabilities.new })
        (capabilities.new ≡ capabilities.old) refusal) }
    ensures valid { IfOk result (λ both. IsValid both.0) }
{
    let catalogue = match read_configuration(alloc, catalogue) {
        Ok(catalogue) => catalogue,
        Err(refusal) => return Err(refusal),
    };
    match read_description(alloc, capabilities) {
        Ok(capabilities) => Ok((catalogue, capabilities)),
        Err(end) => Err(refusal_of(end)),
    }
}

/// A cabinet in memory of the catalogue that is read, with a clock, beside the capabilities document, which is read after it.
pub fn prepare<I: ByteSource>(
    alloc: Global,
    catalogue: &mut I,
    capabilities: &mut I,
    clock: Clock,
) -> Result<Counter<Cabinet>, Unconfigured>
    ensures prepared { IfOk result (λ counter. IsPrepared
        (record { reads = record { before = I.faults catalogue.old; after = I.faults catalogue.new }; from = I.left catalogue.old; to = I.left catalogue.new })
        (record { reads = record { before = I.faults capabilities.old; after = I.faults capabilities.new }; from = I.left capabilities.old; to = I.left capabilities.new })
        clock counter.cabinet counter.capabilities) }
    ensures refused { IfErr result (λ refusal. IsRefused
        (record { reads = record { before = I.faults catalogue.old; after = I.faults catalogue.new }; from = I.left catalogue.old; to = I.left catalogue.new })
        (record { reads = record { before = I.faults capabilities.old; after = I.faults capabilities.new }; from = I.left capabilities.old; to = I.left capabilities.new })
        (capabilities.new ≡ capabilities.old) refusal) }
    ensures valid { IfOk result (λ counter. IsValid counter.cabinet.catalogue) }
    ensures rest { IfOk result (λ counter. IsAtRest counter.cabinet) }
{
    let (catalogue, capabilities) = match both_read(alloc, catalogue, capabilities) {
        Ok(both) => both,
        Err(refusal) => return Err(refusal),
    };
    match counter_of(alloc, catalogue, capabilities, clock) {
        Ok(counter) => Ok(counter),
        Err(_) => Err(Unconfigured::OutOfMemory),
    }
}
