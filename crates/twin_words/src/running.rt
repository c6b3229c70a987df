//! A twin, run: the stretches of lines between stops, and the stops.
ghost use Rattle.std.specs.Prelude.{◌≡◌, ◌≤◌, ◌<◌, ◌+◌, ◌^◌, IfErr, IfOk, length};
ghost use Rattle.feed_words.specs.OneLine.{IsSent};
ghost use Rattle.gate_journal.specs.Sound.{IsSettled, digest_of};
ghost use Rattle.sessions.specs.Outside.{InputChange, OutputChange, counts};
ghost use Rattle.tile_service.specs.Lines.{lines_of};
ghost use Rattle.twin_events.specs.Twins.{IsTwinReady, standing};
ghost use Rattle.twin_lines.specs.Steps.{faults, moment, stopped};
ghost use Rattle.twin_lines.specs.Texts.{answer_text};
ghost use Rattle.twin_lines.specs.declared.order.LinkSide.{LinkSide};
ghost use Rattle.twin_words.specs.Made.{change_of};
ghost use Rattle.twin_words.specs.Opens.{LeavesTwin};
ghost use Rattle.twin_words.specs.Works.{RunsInput, RunsOn, RunsText, weight};

use crate::disks::TwinDisks;
use crate::opening::closed_twin;
use crate::stopping::restart_side;
use command_status::{Status, status_of_input, status_of_opening};
use disk_model::Disk;
use durable_cabinet::Cabinet;
use http_wire::{ByteSink, ByteSource, read_all};
use opened_cache::{LentDisk, Loan};
use source_render::Source;
use std::alloc::Global;
use twin_events::Twin;
use twin_lines::{Halt, TwinLineEnd, run_lines, tell_stopped};

/// The most bytes of the lines of a twin.
const TWIN_LIMIT: usize = 16_777_216;

/// A twin that was run and closed.
#[derive(Drop)]
pub struct FinishedTwin<'d, 'm, 'o, D, M, N> {
    /// How the run ended.
    pub end: Status,
    /// All three disks, closed.
    pub disks: TwinDisks<'d, 'm, 'o, D, M, N>,
}

/// A twin behind a stop, and the lines that are left.
#[derive(Drop)]
pub struct StoppedTwin<'d, 'm, 'o, 't, D: Disk, M: Disk, N: Disk, A: Loan, B: Loan, C: Loan> {
    /// The twin, of which a side was closed and opened again.
    pub twin: Twin<Cabinet<LentDisk<'d, D, A>>, LentDisk<'m, M, B>, LentDisk<'o, N, C>>,
    /// The number of the first line that is left.
    pub line: u64,
    /// The lines that are left.
    pub rest: &'t [u8],
}

/// Tells that a side was closed and opened again: whether all of it went out.
fn told_stopped<O: ByteSink>(output: &mut O, line: u64) -> bool
    ensures told { (which : LinkSide) → IsSent (record { writes = counts (O.faults output.old) (O.faults output.new); from = O.taken output.old; to = O.taken output.new }) (answer_text line (stopped which)) result }
    ensures later { O.faults output.old ≤ O.faults output.new }
{
    match tell_stopped(output, line) {
        TwinLineEnd::Told => true,
        TwinLineEnd::WriteFault => false,
        _ => unreachable!(),
    }
}

/// Closes a twin whose run ended so.
fn end_run<'d, 'm, 'o, D: Disk, M: Disk, N: Disk, A: Loan, B: Loan, C: Loan>(
    twin: Twin<Cabinet<LentDisk<'d, D, A>>, LentDisk<'m, M, B>, LentDisk<'o, N, C>>,
    end: Status,
) -> FinishedTwin<'d, 'm, 'o, D, M, N>
    requires digest { digest_of twin.feed.file.journal ≡ twin.outbox.catalogue.digest }
    requires same { twin.cabinet.state.catalogue ≡ twin.outbox.catalogue }
    ensures end { result.end ≡ end }
    ensures same { result.disks.cache.now ≡ twin.entry.cabinet.file.disk.disk.now }
    ensures marks_same { result.disks.marks.now ≡ twin.entry.feed.file.disk.disk.now }
    ensures outbox_same { result.disks.outbox.now ≡ twin.entry.outbox.file.disk.disk.now }
    ensures left { LeavesTwin twin.entry.outbox.catalogue (standing twin.entry.outbox.out twin.entry.feed.stand twin.entry.cabinet.state twin.entry.sent.items) (change_of D.told D.state D.faults twin.entry.cabinet.file.disk.disk.now result.disks.cache.now) (change_of M.told M.state M.faults twin.entry.feed.file.disk.disk.now result.disks.marks.now) (change_of N.told N.state N.faults twin.entry.outbox.file.disk.disk.now result.disks.outbox.now) }
    ensures loan { result.disks.cache.ghost_name ≡ A.disk }
    ensures marks_loan { result.disks.marks.ghost_name ≡ B.disk }
    ensures outbox_loan { result.disks.outbox.ghost_name ≡ C.disk }
{
    FinishedTwin {
        end,
        disks: closed_twin(twin),
    }
}

/// Runs lines to the first that orders a stop, and that stop; `line` is the number of the first. Where the run ends before, or where a
/// file is refused at the stop, the twin is closed.
fn run_stretch<
    'd,
    'm,
    'o,
    't,
    D: Disk,
    M: Disk,
    N: Disk,
    A: Loan,
    B: Loan,
    C: Loan,
    S: Source,
    O: ByteSink,
>(
    alloc: Global,
    twin: Twin<Cabinet<LentDisk<'d, D, A>>, LentDisk<'m, M, B>, LentDisk<'o, N, C>>,
    source: &mut S,
    output: &mut O,
    line: u64,
    text: &'t [u8],
) -> Result<StoppedTwin<'d, 'm, 'o, 't, D, M, N, A, B, C>, FinishedTwin<'d, 'm, 'o, D, M, N>>
    requires ready { IsTwinReady twin.outbox.catalogue (standing twin.outbox.out twin.feed.stand twin.cabinet.state twin.sent.items) }
    requires digest { digest_of twin.feed.file.journal ≡ twin.outbox.catalogue.digest }
    requires short { line + weight (lines_of text.now) < 2 ^ 63 }
    ensures on { IfOk result (λ n. RunsOn twin.entry.outbox.catalogue (S.told source.old) (change_of D.told D.state D.faults twin.entry.cabinet.file.disk.disk.now n.twin.cabinet.file.disk.disk.now) (change_of M.told M.state M.faults twin.entry.feed.file.disk.disk.now n.twin.feed.file.disk.disk.now) (change_of N.told N.state N.faults twin.entry.outbox.file.disk.disk.now n.twin.outbox.file.disk.disk.now) (IsSettled twin.entry.cabinet.file.journal) (IsSettled n.twin.cabinet.file.journal)
        (record { writes = counts (O.faults output.old) (O.faults output.new); from = O.taken output.old; to = O.taken output.new }) line text.now
        (moment (standing twin.entry.outbox.out twin.entry.feed.stand twin.entry.cabinet.state twin.entry.sent.items) (faults (S.faults source.old) (N.faults twin.entry.outbox.file.disk.disk.now) (M.faults twin.entry.feed.file.disk.disk.now) (D.faults twin.entry.cabinet.file.disk.disk.now)))
        (moment (standing n.twin.outbox.out n.twin.feed.stand n.twin.cabinet.state n.twin.sent.items) (faults (S.faults source.new) (N.faults n.twin.outbox.file.disk.disk.now) (M.faults n.twin.feed.file.disk.disk.now) (D.faults n.twin.cabinet.file.disk.disk.now))) n.line n.rest.now) }
    ensures ready { IfOk result (λ n. IsTwinReady n.twin.outbox.catalogue (standing n.twin.outbox.out n.twin.feed.stand n.twin.cabinet.state n.twin.sent.items)) }
    ensures catalogue { IfOk result (λ n. n.twin.outbox.catalogue ≡ twin.entry.outbox.catalogue) }
    ensures digest { IfOk result (λ n. digest_of n.twin.feed.file.journal ≡ digest_of twin.entry.feed.file.journal) }
    ensures told { IfOk result (λ n. D.told n.twin.cabinet.file.disk.disk.now ≡ D.told twin.entry.cabinet.file.disk.disk.now) }
    ensures marks_told { IfOk result (λ n. M.told n.twin.feed.file.disk.disk.now ≡ M.told twin.entry.feed.file.disk.disk.now) }
    ensures outbox_told { IfOk result (λ n. N.told n.twin.outbox.file.disk.disk.now ≡ N.told twin.entry.outbox.file.disk.disk.now) }
    ensures fewer { IfOk result (λ n. length (lines_of n.rest.now) < length (lines_of text.now)) }
    ensures source_told { S.told source.new ≡ S.told source.old }
    ensures ended { IfErr result (λ f. RunsText twin.entry.outbox.catalogue (S.told source.old) (S.faults source.new) (change_of D.told D.state D.faults twin.entry.cabinet.file.disk.disk.now f.disks.cache.now) (change_of M.told M.state M.faults twin.entry.feed.file.disk.disk.now f.disks.marks.now) (change_of N.told N.state N.faults twin.entry.outbox.file.disk.disk.now f.disks.outbox.now) (IsSettled twin.entry.cabinet.file.journal)
        (record { writes = counts (O.faults output.old) (O.faults output.new); from = O.taken output.old; to = O.taken output.new }) line text.now
        (moment (standing twin.entry.outbox.out twin.entry.feed.stand twin.entry.cabinet.state twin.entry.sent.items) (faults (S.faults source.old) (N.faults twin.entry.outbox.file.disk.disk.now) (M.faults twin.entry.feed.file.disk.disk.now) (D.faults twin.entry.cabinet.file.disk.disk.now))) f.end) }
    ensures ended_told { IfErr result (λ f. D.told f.disks.cache.now ≡ D.told twin.entry.cabinet.file.disk.disk.now) }
    ensures ended_marks_told { IfErr result (λ f. M.told f.disks.marks.now ≡ M.told twin.entry.feed.file.disk.disk.now) }
    ensures ended_outbox_told { IfErr result (λ f. N.told f.disks.outbox.now ≡ N.told twin.entry.outbox.file.disk.disk.now) }
    ensures ended_loan { IfErr result (λ f. f.disks.cache.ghost_name ≡ A.disk) }
    ensures ended_marks_loan { IfErr result (λ f. f.disks.marks.ghost_name ≡ B.disk) }
    ensures ended_outbox_loan { IfErr result (λ f. f.disks.outbox.ghost_name ≡ C.disk) }
    ensures later { O.faults output.old ≤ O.faults output.new }
{
    let mut twin = twin;
    match run_lines(alloc, &mut twin, source, output, line, text) {
        Halt::Done => Err(end_run(twin, Status::Done)),
        Halt::Line(number) => Err(end_run(twin, Status::Line(number))),
        Halt::WriteFault => Err(end_run(twin, Status::WriteFault)),
        Halt::OutOfMemory => Err(end_run(twin, Status::OutOfMemory)),
        Halt::Stop(side, number, rest) => match restart_side(alloc, twin, side) {
            Err(refusal) => Err(FinishedTwin {
                end: status_of_opening(refusal.cause),
                disks: refusal.disks,
            }),
            Ok(twin) => {
                if told_stopped(output, number) {
                    Ok(StoppedTwin {
                        twin,
                        line: number + 1,
                        rest,
                    })
                } else {
                    Err(end_run(twin, Status::WriteFault))
                }
            }
        },
    }
}

/// Runs the lines of a text, and the stops that they order, one after the other, and closes the twin.
pub(crate) fn run_text<
    'd,
    'm,
    'o,
    D: Disk,
    M: Disk,
    N: Disk,
    A: Loan,
    B: Loan,
    C: Loan,
    S: Source,
    O: ByteSink,
>(
    alloc: Global,
    twin: Twin<Cabinet<LentDisk<'d, D, A>>, LentDisk<'m, M, B>, LentDisk<'o, N, C>>,
    source: &mut S,
    output: &mut O,
    text: &[u8],
) -> FinishedTwin<'d, 'm, 'o, D, M, N>
    requires ready { IsTwinReady twin.outbox.catalogue (standing twin.outbox.out twin.feed.stand twin.cabinet.state twin.sent.items) }
    requires digest { digest_of twin.feed.file.journal ≡ twin.outbox.catalogue.digest }
    requires short { length text.now ≤ 16777216 }
    ensures runs { RunsText twin.entry.outbox.catalogue (S.told source.old) (S.faults source.new) (change_of D.told D.state D.faults twin.entry.cabinet.file.disk.disk.now result.disks.cache.now) (change_of M.told M.state M.faults twin.entry.feed.file.disk.disk.now result.disks.marks.now) (change_of N.told N.state N.faults twin.entry.outbox.file.disk.disk.now result.disks.outbox.now) (IsSettled twin.entry.cabinet.file.journal)
        (record { writes = counts (O.faults output.old) (O.faults output.new); from = O.taken output.old; to = O.taken output.new }) 1 text.now
        (moment (standing twin.entry.outbox.out twin.entry.feed.stand twin.entry.cabinet.state twin.entry.sent.items) (faults (S.faults source.old) (N.faults twin.entry.outbox.file.disk.disk.now) (M.faults twin.entry.feed.file.disk.disk.now) (D.faults twin.entry.cabinet.file.disk.disk.now))) result.end }
    ensures told { D.told result.disks.cache.now ≡ D.told twin.entry.cabinet.file.disk.disk.now }
    ensures marks_told { M.told result.disks.marks.now ≡ M.told twin.entry.feed.file.disk.disk.now }
    ensures outbox_told { N.told result.disks.outbox.now ≡ N.told twin.entry.outbox.file.disk.disk.now }
    ensures loan { result.disks.cache.ghost_name ≡ A.disk }
    ensures marks_loan { result.disks.marks.ghost_name ≡ B.disk }
    ensures outbox_loan { result.disks.outbox.ghost_name ≡ C.disk }
    ensures source_told { S.told source.new ≡ S.told source.old }
{
    let mut next = StoppedTwin {
        twin,
        line: 1,
        rest: text,
    };
    'running: loop {
        match run_stretch(alloc, next.twin, source, output, next.line, next.rest) {
            Ok(behind) => next = behind,
            Err(finished) => return finished,
        }
    }
}

/// Reads the input whole, runs its lines, and closes the twin.
pub(crate) fn run_input<
    'd,
    'm,
    'o,
    D: Disk,
    M: Disk,
    N: Disk,
    A: Loan,
    B: Loan,
    C: Loan,
    S: Source,
    I: ByteSource,
    O: ByteSink,
>(
    alloc: Global,
    twin: Twin<Cabinet<LentDisk<'d, D, A>>, LentDisk<'m, M, B>, LentDisk<'o, N, C>>,
    source: &mut S,
    input: &mut I,
    output: &mut O,
) -> FinishedTwin<'d, 'm, 'o, D, M, N>
    requires ready { IsTwinReady twin.outbox.catalogue (standing twin.outbox.out twin.feed.stand twin.cabinet.state twin.sent.items) }
    requires digest { digest_of twin.feed.file.journal ≡ twin.outbox.catalogue.digest }
    ensures runs { RunsInput twin.entry.outbox.catalogue (S.told source.old) (S.faults source.new) (change_of D.told D.state D.faults twin.entry.cabinet.file.disk.disk.now result.disks.cache.now) (change_of M.told M.state M.faults twin.entry.feed.file.disk.disk.now result.disks.marks.now) (change_of N.told N.state N.faults twin.entry.outbox.file.disk.disk.now result.disks.outbox.now) (IsSettled twin.entry.cabinet.file.journal)
        (record { reads = counts (I.faults input.old) (I.faults input.new); from = I.left input.old; to = I.left input.new })
        (record { writes = counts (O.faults output.old) (O.faults output.new); from = O.taken output.old; to = O.taken output.new })
        (moment (standing twin.entry.outbox.out twin.entry.feed.stand twin.entry.cabinet.state twin.entry.sent.items) (faults (S.faults source.old) (N.faults twin.entry.outbox.file.disk.disk.now) (M.faults twin.entry.feed.file.disk.disk.now) (D.faults twin.entry.cabinet.file.disk.disk.now))) (output.new ≡ output.old) (source.new ≡ source.old) result.end }
    ensures told { D.told result.disks.cache.now ≡ D.told twin.entry.cabinet.file.disk.disk.now }
    ensures marks_told { M.told result.disks.marks.now ≡ M.told twin.entry.feed.file.disk.disk.now }
    ensures outbox_told { N.told result.disks.outbox.now ≡ N.told twin.entry.outbox.file.disk.disk.now }
    ensures loan { result.disks.cache.ghost_name ≡ A.disk }
    ensures marks_loan { result.disks.marks.ghost_name ≡ B.disk }
    ensures outbox_loan { result.disks.outbox.ghost_name ≡ C.disk }
    ensures source_told { S.told source.new ≡ S.told source.old }
{
    match read_all(alloc, input, TWIN_LIMIT) {
        Ok(text) => run_text(alloc, twin, source, output, text.as_slice()),
        Err(why) => end_run(twin, status_of_input(why)),
    }
}
