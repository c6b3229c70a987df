//! A schedule as a whole: it is read, its lines are run, and the actors that are still busy give up.
ghost use Rattle.std.specs.Prelude.{◌≡◌};
ghost use Rattle.cache_core.specs.Lasting.{Lasting};
ghost use Rattle.catalog.specs.Valid.{IsValid};
ghost use Rattle.sessions.specs.Outside.{counts};
ghost use Rattle.tile_service.specs.Passing.{LeadsThrough};
ghost use Rattle.tile_service.specs.Run.{free_seats, run_state_of};
ghost use Rattle.tile_service.specs.Schedules.{Schedules, SchedulesThrough, end_of};

use crate::counter::Counter;
use crate::run_lines::{RunEnd, run_lines};
use crate::seats::{close, free_seats};
use cabinet::Keeper;
use cache_core::laws_of_lasting;
use http_wire::{ByteSink, ByteSource, InputEnd, read_all};
use source_render::Source;
use std::alloc::Global;

/// The most bytes of a schedule.
const SCHEDULE_LIMIT: usize = 16_777_216;

/// How a schedule ended.
#[derive(Clone, Copy, PartialEq, Eq)]
pub enum ScheduleEnd {
    /// The input was read to its end, and every line was run.
    Done,
    /// This line was refused, counted from 1; the lines before it were run.
    Line(u64),
    /// A read of the input failed.
    ReadFault,
    /// A write of the output failed; no later line was run.
    WriteFault,
    /// The input has more bytes than a schedule may have.
    TooLong,
    /// Memory ran out before the first line.
    OutOfMemory,
}

/// Reads a schedule whole, runs its lines in order, and writes the answers. At the end, whatever it is, the actors that are
/// busy give up. It leads through a keeper after each line, from which on a crash leaves what answers for the truncations of
/// that line too.
pub fn run_schedule<C: Keeper, S: Source, I: ByteSource, O: ByteSink>(
    alloc: Global,
    counter: &mut Counter<C>,
    source: &mut S,
    input: &mut I,
    output: &mut O,
) -> ScheduleEnd
    requires { IsValid (C.state counter.old.cabinet).catalogue }
    ensures schedules { Schedules
        (record { reads = record { before = I.faults input.old; after = I.faults input.new }; from = I.left input.old; to = I.left input.new })
        (record { told = S.told source.old; renders = record { before = S.faults source.old; after = S.faults source.new }; disk = counts (C.faults counter.old.cabinet) (C.faults counter.new.cabinet); writes = record { before = O.faults output.old; after = O.faults output.new }; from = O.taken output.old; to = O.taken output.new })
        ((output.new ≡ output.old) × (source.new ≡ source.old) × (counter.new ≡ counter.old))
        (run_state_of (C.state counter.old.cabinet) counter.old.capabilities free_seats) (run_state_of (C.state counter.new.cabinet) counter.new.capabilities free_seats) result }
    ensures leads { SchedulesThrough (LeadsThrough C C.state C.outlasts counter.old.cabinet counter.new.cabinet)
        (record { reads = record { before = I.faults input.old; after = I.faults input.new }; from = I.left input.old; to = I.left input.new })
        (record { told = S.told source.old; renders = record { before = S.faults source.old; after = S.faults source.new }; disk = counts (C.faults counter.old.cabinet) (C.faults counter.new.cabinet); writes = record { before = O.faults output.old; after = O.faults output.new }; from = O.taken output.old; to = O.taken output.new })
        ((output.new ≡ output.old) × (source.new ≡ source.old) × (counter.new ≡ counter.old))
        (run_state_of (C.state counter.old.cabinet) counter.old.capabilities free_seats) (run_state_of (C.state counter.new.cabinet) counter.new.capabilities free_seats) result }
    ensures lasts { Lasting (C.outlasts counter.old.cabinet counter.new.cabinet) (C.state counter.old.cabinet) (C.state counter.new.cabinet) }
{
    laws_of_lasting::<C>();
    let text = match read_all(alloc, input, SCHEDULE_LIMIT) {
        Ok(text) => text,
        Err(InputEnd::ReadFault) => return ScheduleEnd::ReadFault,
        Err(InputEnd::TooLong) => return ScheduleEnd::TooLong,
        Err(InputEnd::OutOfMemory) => return ScheduleEnd::OutOfMemory,
    };
    let Ok(mut seats) = free_seats(alloc) else {
        return ScheduleEnd::OutOfMemory;
    };
    let end = run_lines(
        alloc,
        counter,
        seats.as_mut_slice(),
        source,
        text.as_slice(),
        output,
    );
    close(&mut counter.cabinet, seats);
    end_of(end)
}

/// The end of a schedule of which each line could be run.
fn end_of(end: RunEnd) -> ScheduleEnd
    ensures { result ≡ end_of end }
{
    match end {
        RunEnd::Done => ScheduleEnd::Done,
        RunEnd::Line(n) => ScheduleEnd::Line(n),
        RunEnd::WriteFault => ScheduleEnd::WriteFault,
    }
}
