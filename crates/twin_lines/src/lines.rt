//! The lines of a twin, one after the other.
ghost use Rattle.std.specs.Prelude.{◌≡◌, ◌≤◌, ◌<◌, ◌+◌, ◌^◌, length};
ghost use Rattle.cache_core.specs.Lasting.{Lasting};
ghost use Rattle.gate_journal.specs.Sound.{digest_of};
ghost use Rattle.sessions.specs.Outside.{OutputChange, counts};
ghost use Rattle.twin_events.specs.Twins.{IsTwinReady, standing};
ghost use Rattle.twin_lines.specs.Ends.{CanGoOn, HasRunLines, passage};
ghost use Rattle.twin_lines.specs.Steps.{faults, moment};

use crate::line::run_line;
use crate::line_end::TwinLineEnd;
use crate::order::LinkSide;
use cabinet::Keeper;
use cache_core::laws_of_lasting;
use disk_model::Disk;
use http_wire::ByteSink;
use source_render::Source;
use std::alloc::Global;
use tile_service::split_line;
use twin_events::Twin;

/// How lines ended. Line numbers count from that of the first line.
#[derive(Clone, Copy)]
pub enum Halt<'t> {
    /// Each line was answered.
    Done,
    /// The line of this number orders a stop of this side, which is left to the caller, and this text stands behind the line; the lines
    /// before it were answered.
    Stop(LinkSide, u64, &'t [u8]),
    /// The line of this number is no event of a lossy link; the lines before it were answered.
    Line(u64),
    /// A write of an answer failed; nothing happened behind it.
    WriteFault,
    /// Memory ran out; nothing happened behind it.
    OutOfMemory,
}

/// Runs lines one after the other until one orders a stop, or to the end: lets happen what each orders, and tells what became of it.
/// `line` is the number of the first.
pub fn run_lines<'t, K: Keeper, M: Disk, N: Disk, S: Source, O: ByteSink>(
    alloc: Global,
    twin: &mut Twin<K, M, N>,
    source: &mut S,
    output: &mut O,
    line: u64,
    text: &'t [u8],
) -> Halt<'t>
    requires ready { IsTwinReady twin.old.outbox.catalogue (standing twin.old.outbox.out twin.old.feed.stand (K.state twin.old.cabinet) twin.old.sent.items) }
    requires short { line + length text.now < 2 ^ 64 }
    ensures runs { HasRunLines twin.old.outbox.catalogue (S.told source.old) (digest_of twin.old.feed.file.journal) (passage (M.told twin.old.feed.file.disk) (M.state twin.old.feed.file.disk) (M.state twin.new.feed.file.disk)) (passage (N.told twin.old.outbox.file.disk) (N.state twin.old.outbox.file.disk) (N.state twin.new.outbox.file.disk))
        (record { writes = counts (O.faults output.old) (O.faults output.new); from = O.taken output.old; to = O.taken output.new }) line text.now
        (moment (standing twin.old.outbox.out twin.old.feed.stand (K.state twin.old.cabinet) twin.old.sent.items) (faults (S.faults source.old) (N.faults twin.old.outbox.file.disk) (M.faults twin.old.feed.file.disk) (K.faults twin.old.cabinet)))
        (moment (standing twin.new.outbox.out twin.new.feed.stand (K.state twin.new.cabinet) twin.new.sent.items) (faults (S.faults source.new) (N.faults twin.new.outbox.file.disk) (M.faults twin.new.feed.file.disk) (K.faults twin.new.cabinet))) result }
    ensures ready { IsTwinReady twin.new.outbox.catalogue (standing twin.new.outbox.out twin.new.feed.stand (K.state twin.new.cabinet) twin.new.sent.items) }
    ensures catalogue { twin.new.outbox.catalogue ≡ twin.old.outbox.catalogue }
    ensures posts_told { N.told twin.new.outbox.file.disk ≡ N.told twin.old.outbox.file.disk }
    ensures marks_told { M.told twin.new.feed.file.disk ≡ M.told twin.old.feed.file.disk }
    ensures digest { digest_of twin.new.feed.file.journal ≡ digest_of twin.old.feed.file.journal }
    ensures source_told { S.told source.new ≡ S.told source.old }
    ensures lasts { Lasting (K.outlasts twin.old.cabinet twin.new.cabinet) (K.state twin.old.cabinet) (K.state twin.new.cabinet) }
    ensures later { O.faults output.old ≤ O.faults output.new }
    ensures goes_on { CanGoOn line text.now result }
{
    laws_of_lasting::<K>();
    let mut rest = text;
    let mut number = line;
    while !rest.is_empty() {
        let (first, next) = split_line(rest);
        match run_line(alloc, twin, source, output, number, first) {
            TwinLineEnd::Told => {}
            TwinLineEnd::Stop(side) => return Halt::Stop(side, number, next),
            TwinLineEnd::Refused => return Halt::Line(number),
            TwinLineEnd::WriteFault => return Halt::WriteFault,
            TwinLineEnd::OutOfMemory => return Halt::OutOfMemory,
        }
        number += 1;
        rest = next;
    }
    Halt::Done
}
