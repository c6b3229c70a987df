//! The lines of a schedule, run one after the other up to the first that is refused or whose answer can't be written.
ghost use Rattle.std.specs.Prelude.{◌≡◌, ◌<◌, ◌^◌, List, Option, length, map, replicate};
ghost use Rattle.cache_core.specs.Lasting.{Lasting};
ghost use Rattle.catalog.specs.Valid.{IsValid};
ghost use Rattle.sessions.specs.Outside.{counts};
ghost use Rattle.tile_service.specs.OneLine.{seat_of};
ghost use Rattle.tile_service.specs.Passing.{LeadsThrough};
ghost use Rattle.tile_service.specs.Run.{PendingRequest, free_seats, run_state_of};
ghost use Rattle.tile_service.specs.Schedules.{HasRunThrough};

use crate::counter::Counter;
use crate::lines::split_line;
use crate::one_line::{ScheduleLineEnd, run_line};
use crate::seats::{ACTORS, ActorPlace};
use cabinet::Keeper;
use cache_core::laws_of_lasting;
use http_wire::ByteSink;
use source_render::Source;
use std::alloc::Global;

/// How the lines of a schedule ended.
#[derive(Clone, Copy, PartialEq, Eq)]
pub enum RunEnd {
    Done,
    /// This line was refused, counted from 1.
    Line(u64),
    WriteFault,
}

/// Runs the lines of a schedule, in which no actor is busy yet, and writes the answers.
pub fn run_lines<C: Keeper, S: Source, O: ByteSink>(
    alloc: Global,
    counter: &mut Counter<C>,
    seats: &mut [ActorPlace],
    source: &mut S,
    text: &[u8],
    output: &mut O,
) -> RunEnd
    requires valid { IsValid (C.state counter.old.cabinet).catalogue }
    requires short { length text.now < 2 ^ 32 }
    requires free { seats.old ≡ replicate ACTORS ActorPlace.Free }
    ensures run { (busy : List (Option PendingRequest)) × (map seat_of busy ≡ seats.new) × HasRunThrough
        (LeadsThrough C C.state C.outlasts counter.old.cabinet counter.new.cabinet)
        (record { told = S.told source.old; renders = record { before = S.faults source.old; after = S.faults source.new }; disk = counts (C.faults counter.old.cabinet) (C.faults counter.new.cabinet); writes = record { before = O.faults output.old; after = O.faults output.new }; from = O.taken output.old; to = O.taken output.new })
        (run_state_of (C.state counter.old.cabinet) counter.old.capabilities free_seats) text.now (run_state_of (C.state counter.new.cabinet) counter.new.capabilities busy) result }
    ensures capabilities { counter.new.capabilities ≡ counter.old.capabilities }
    ensures lasts { Lasting (C.outlasts counter.old.cabinet counter.new.cabinet) (C.state counter.old.cabinet) (C.state counter.new.cabinet) }
{
    laws_of_lasting::<C>();
    let mut rest = text;
    let mut lines = 0;
    while !rest.is_empty() {
        let (line, next) = split_line(rest);
        lines += 1;
        match run_line(alloc, counter, seats, source, output, lines, line) {
            ScheduleLineEnd::Done(_) => {}
            ScheduleLineEnd::Refused => return RunEnd::Line(lines),
            ScheduleLineEnd::WriteFault => return RunEnd::WriteFault,
        }
        rest = next;
    }
    RunEnd::Done
}
