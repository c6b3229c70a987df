//! One line of a schedule, run and answered.
ghost use Rattle.std.specs.Io.KnownBytes.{Appends};
ghost use Rattle.std.specs.Prelude.{◌≡◌, ◌≤◌, List, None, Option, flat_map, map};
ghost use Rattle.cache_core.specs.Lasting.{Lasting};
ghost use Rattle.catalog.specs.Valid.{IsValid};
ghost use Rattle.sessions.specs.Outside.{counts};
ghost use Rattle.tile_service.specs.OneLine.{IsSeated};
ghost use Rattle.tile_service.specs.Run.{PendingRequest};
ghost use Rattle.tile_service.specs.Written.{Writes};

use crate::action_end::ActionEnd;
use crate::answer::write_answer;
use crate::cache_tally::CacheResult;
use crate::counter::Counter;
use crate::perform::perform;
use crate::seats::ActorPlace;
use cabinet::Keeper;
use http_wire::ByteSink;
use source_render::Source;
use std::alloc::Global;

/// How a line ended.
#[derive(Clone, Copy, PartialEq, Eq)]
pub enum ScheduleLineEnd {
    /// What its answer tells of the cache, where it has one.
    Done(Option<CacheResult>),
    /// It was refused, and nothing happened.
    Refused,
    /// A write failed.
    WriteFault,
}

/// Runs line `n`, and writes its answer.
pub fn run_line<C: Keeper, S: Source, O: ByteSink>(
    alloc: Global,
    counter: &mut Counter<C>,
    seats: &mut [ActorPlace],
    source: &mut S,
    output: &mut O,
    n: u64,
    line: &[u8],
) -> ScheduleLineEnd
    requires valid { IsValid (C.state counter.old.cabinet).catalogue }
    requires seated { (busy : List (Option PendingRequest)) × IsSeated (C.state counter.old.cabinet) counter.old.capabilities seats.old busy }
    ensures writes { Writes
        (record { told = S.told source.old; renders = record { before = S.faults source.old; after = S.faults source.new }; disk = counts (C.faults counter.old.cabinet) (C.faults counter.new.cabinet); writes = record { before = O.faults output.old; after = O.faults output.new }; from = O.taken output.old; to = O.taken output.new })
        (C.state counter.old.cabinet) counter.old.capabilities seats.old n line.now (C.state counter.new.cabinet) seats.new result }
    ensures catalogue { (C.state counter.new.cabinet).catalogue ≡ (C.state counter.old.cabinet).catalogue }
    ensures capabilities { counter.new.capabilities ≡ counter.old.capabilities }
    ensures later { O.faults output.old ≤ O.faults output.new }
    ensures told { S.told source.new ≡ S.told source.old }
    ensures lasts { Lasting (C.outlasts counter.old.cabinet counter.new.cabinet) (C.state counter.old.cabinet) (C.state counter.new.cabinet) }
{
    match perform(alloc, counter, seats, source, n, line) {
        ActionEnd::Refused => ScheduleLineEnd::Refused,
        ActionEnd::Silent => ScheduleLineEnd::Done(None),
        ActionEnd::Answers(answer) => {
            let document = counter.capabilities.bytes();
            let written = write_answer(alloc, &counter.tables.crc, document, output, n, &answer);
            drop(answer);
            match written {
                Ok(told) => ScheduleLineEnd::Done(Some(told)),
                Err(_) => ScheduleLineEnd::WriteFault,
            }
        }
    }
}
