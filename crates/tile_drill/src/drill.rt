//! A drill as a whole: its lines are made and run, and its summary is written.
ghost use Rattle.std.specs.Prelude.{◌≡◌};
ghost use Rattle.catalog.specs.Valid.{IsValid};
ghost use Rattle.sessions.specs.Outside.{counts};
ghost use Rattle.tile_drill.specs.Drill.{Drills};
ghost use Rattle.tile_service.specs.Run.{free_seats, run_state_of};

use crate::drill_run::{MadeEnd, run_made_lines};
use crate::summary::send_summary;
use cabinet::Cabinet;
use http_wire::ByteSink;
use source_render::Source;
use std::alloc::Global;
use tile_service::{Counter, close, free_seats};

/// How a drill ended.
#[derive(Clone, Copy, PartialEq, Eq)]
pub enum DrillEnd {
    /// Every line was run, and the summary was written.
    Done,
    /// A write of the summary failed.
    WriteFault,
    /// Memory ran out for the seats, or for a line.
    OutOfMemory,
}

/// Makes the lines of the drill of a number, runs them as those of a schedule, and writes a summary: how many answers there
/// were, what they tell of the cache, and the SHA-256 of all that a schedule of these lines writes. At the end, whatever it
/// is, the actors that are busy give up.
pub fn run_drill<S: Source, O: ByteSink>(
    alloc: Global,
    counter: &mut Counter<Cabinet>,
    source: &mut S,
    number: u32,
    output: &mut O,
) -> DrillEnd
    requires { IsValid counter.old.cabinet.catalogue }
    ensures { Drills
        (record { told = S.told source.old; renders = record { before = S.faults source.old; after = S.faults source.new }; disk = counts 0 0; writes = record { before = O.faults output.old; after = O.faults output.new }; from = O.taken output.old; to = O.taken output.new })
        (output.new ≡ output.old) number
        (run_state_of counter.old.cabinet counter.old.capabilities free_seats) (run_state_of counter.new.cabinet counter.new.capabilities free_seats) result }
{
    let Ok(mut seats) = free_seats(alloc) else {
        return DrillEnd::OutOfMemory;
    };
    let end = run_made_lines(alloc, counter, seats.as_mut_slice(), source, number);
    close(&mut counter.cabinet, seats);
    match end {
        MadeEnd::Done(tally, digest) => match send_summary(output, number, &tally, &digest) {
            Ok(()) => DrillEnd::Done,
            Err(_) => DrillEnd::WriteFault,
        },
        MadeEnd::OutOfMemory => DrillEnd::OutOfMemory,
    }
}
