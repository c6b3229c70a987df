//! The lines of a drill, each run as soon as it is made, with the count and the digest of the answers.
ghost use Rattle.std.specs.Prelude.{◌≡◌, List, Option, Some, IfOk, OnErr, map, replicate};
ghost use Rattle.catalog.specs.Valid.{IsValid};
ghost use Rattle.sessions.specs.Outside.{counts};
ghost use Rattle.tile_drill.specs.Drilling.{HasMade, Makes};
ghost use Rattle.tile_service.specs.OneLine.{IsSeated, seat_of};
ghost use Rattle.tile_service.specs.Run.{PendingRequest, free_seats, run_state_of};

use crate::digest_sink::DigestSink;
use crate::draws::Draws;
use crate::drill_lines::made_line;
use cabinet::Cabinet;
use source_render::Source;
use std::alloc::{AllocError, Global};
use tile_service::{ACTORS, ActorPlace, CacheTally, Counter, ScheduleLineEnd, run_line};

/// How many lines a drill has.
pub const DRILL_LINES: u64 = 4096;

/// How the lines of a drill ended.
#[derive(Clone, Copy, PartialEq, Eq)]
pub enum MadeEnd {
    /// All were run: what their answers tell of the cache, and the SHA-256 of what they write.
    Done(CacheTally, [u8; 32]),
    /// Memory ran out for a line.
    OutOfMemory,
}

/// Makes line `n` and runs it. `AllocError` where memory runs out for its text, and then nothing happened.
fn run_made_line<S: Source>(
    alloc: Global,
    counter: &mut Counter<Cabinet>,
    seats: &mut [ActorPlace],
    source: &mut S,
    output: &mut DigestSink,
    draws: &mut Draws,
    n: u64,
) -> Result<ScheduleLineEnd, AllocError>
    requires valid { IsValid counter.old.cabinet.catalogue }
    requires seated { (busy : List (Option PendingRequest)) × IsSeated counter.old.cabinet counter.old.capabilities seats.old busy }
    ensures makes { IfOk result (λ end. Makes
        (record { told = S.told source.old; renders = record { before = S.faults source.old; after = S.faults source.new }; disk = counts 0 0; writes = counts 0 0; from = Some output.old; to = Some output.new })
        counter.old.cabinet counter.old.capabilities seats.old n draws.old.x counter.new.cabinet seats.new draws.new.x end) }
    ensures err { OnErr result ((counter.new ≡ counter.old) × (seats.new ≡ seats.old) × (source.new ≡ source.old)) }
    ensures catalogue { counter.new.cabinet.catalogue ≡ counter.old.cabinet.catalogue }
    ensures capabilities { counter.new.capabilities ≡ counter.old.capabilities }
    ensures told { S.told source.new ≡ S.told source.old }
{
    let line = made_line(alloc, counter.cabinet.catalogue(), seats, draws)?;
    Ok(run_line(alloc, counter, seats, source, output, n, line.as_slice()))
}

/// Makes and runs the lines of the drill of a number, while no actor is busy yet.
pub fn run_made_lines<S: Source>(
    alloc: Global,
    counter: &mut Counter<Cabinet>,
    seats: &mut [ActorPlace],
    source: &mut S,
    number: u32,
) -> MadeEnd
    requires valid { IsValid counter.old.cabinet.catalogue }
    requires free { seats.old ≡ replicate ACTORS ActorPlace.Free }
    ensures made { (busy : List (Option PendingRequest)) × (map seat_of busy ≡ seats.new) × HasMade (S.told source.old) (record { before = S.faults source.old; after = S.faults source.new })
        (run_state_of counter.old.cabinet counter.old.capabilities free_seats) number (run_state_of counter.new.cabinet counter.new.capabilities busy) result }
    ensures capabilities { counter.new.capabilities ≡ counter.old.capabilities }
{
    let mut draws = Draws {
        x: u64::from(number),
    };
    let mut output = DigestSink::new();
    let mut tally = CacheTally::NONE;
    let mut lines = 0;
    'making: while lines < DRILL_LINES {
        lines += 1;
        match run_made_line(
            alloc,
            counter,
            seats,
            source,
            &mut output,
            &mut draws,
            lines,
        ) {
            Ok(ScheduleLineEnd::Done(told)) => tally.count(told),
            // A made line says what its actor may do.
            Ok(ScheduleLineEnd::Refused) => unreachable!(),
            // A digest takes every byte.
            Ok(ScheduleLineEnd::WriteFault) => unreachable!(),
            Err(_) => return MadeEnd::OutOfMemory,
        }
    }
    MadeEnd::Done(tally, output.digest())
}
