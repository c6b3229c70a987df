//! The changes of an input, made on an opened cabinet with the marks of a disk.
ghost use Rattle.std.specs.Prelude.{◌≡◌, IsTrue};
ghost use Rattle.cache_core.specs.Lasting.{Lasting};
ghost use Rattle.catalog.specs.Valid.{IsValid};
ghost use Rattle.change_feed.specs.Files.{IsMarksFile};
ghost use Rattle.feed_words.specs.Ends.{FeedsOn};
ghost use Rattle.feed_words.specs.Fed.{RunsInput, end_of_lines};
ghost use Rattle.gate_journal.specs.Sound.{digest_of};
ghost use Rattle.opened_cache.specs.Change.{DiskChange};
ghost use Rattle.sessions.specs.Outside.{InputChange, OutputChange, counts};

use crate::lines::{FeedLinesEnd, run_lines};
use crate::marks::{closed_marks, opened_marks};
use cabinet::Keeper;
use cache_core::laws_of_lasting;
use change_feed::Feed;
use command_status::{Status, status_of_opening};
use disk_model::Disk;
use http_wire::{ByteSink, ByteSource, InputEnd, read_all};
use opened_cache::Loan;
use std::alloc::Global;
use std::marker::Brand;

/// The most bytes of the changes of an input.
const FEED_LIMIT: usize = 16_777_216;

/// The end of a feed whose lines ended so.
fn end_of_lines(end: FeedLinesEnd) -> Status
    ensures { result ≡ end_of_lines end }
{
    match end {
        FeedLinesEnd::Done => Status::Done,
        FeedLinesEnd::Line(n) => Status::Line(n),
        FeedLinesEnd::WriteFault => Status::WriteFault,
        FeedLinesEnd::OutOfMemory => Status::OutOfMemory,
    }
}

/// Reads the input whole, and makes the changes of its lines.
fn run_input<C: Keeper, D: Disk, I: ByteSource, O: ByteSink>(
    alloc: Global,
    feed: &mut Feed<D>,
    cabinet: &mut C,
    input: &mut I,
    output: &mut O,
) -> Status
    requires { IsValid (C.state cabinet.old).catalogue }
    ensures runs { RunsInput
        (record { reads = counts (I.faults input.old) (I.faults input.new); from = I.left input.old; to = I.left input.new })
        (record { writes = counts (O.faults output.old) (O.faults output.new); from = O.taken output.old; to = O.taken output.new })
        (output.new ≡ output.old) (D.told feed.old.file.disk) (digest_of feed.old.file.journal) (D.state feed.old.file.disk) (D.state feed.new.file.disk)
        (record { stand = feed.old.stand; faults = D.faults feed.old.file.disk; cabinet = C.state cabinet.old; cabinet_faults = C.faults cabinet.old })
        (record { stand = feed.new.stand; faults = D.faults feed.new.file.disk; cabinet = C.state cabinet.new; cabinet_faults = C.faults cabinet.new }) result }
    ensures told { D.told feed.new.file.disk ≡ D.told feed.old.file.disk }
    ensures digest { digest_of feed.new.file.journal ≡ digest_of feed.old.file.journal }
    ensures lasts { Lasting (C.outlasts cabinet.old cabinet.new) (C.state cabinet.old) (C.state cabinet.new) }
{
    laws_of_lasting::<C>();
    match read_all(alloc, input, FEED_LIMIT) {
        Ok(text) => end_of_lines(run_lines(alloc, feed, cabinet, output, text.as_slice())),
        Err(InputEnd::ReadFault) => Status::ReadFault,
        Err(InputEnd::TooLong) => Status::TooLong,
        Err(InputEnd::OutOfMemory) => Status::OutOfMemory,
    }
}

/// Makes the changes of the input with marks that are lent, which are handed back.
fn feed_over<'m, C: Keeper, D: Disk, I: ByteSource, O: ByteSink, L: Loan>(
    alloc: Global,
    cabinet: &mut C,
    marks: &'m mut D,
    input: &mut I,
    output: &mut O,
) -> (&'m mut D, Status)
    requires valid { IsValid (C.state cabinet.old).catalogue }
    requires loan { marks.ghost_name ≡ L.disk }
    requires ours { IsTrue (D.told marks.now) → IsMarksFile (C.state cabinet.old).catalogue.digest (D.state marks.now).seen }
    ensures feeds { FeedsOn (C.state cabinet.old).catalogue (counts (C.faults cabinet.old) (C.faults cabinet.new))
        (record { reads = counts (I.faults input.old) (I.faults input.new); from = I.left input.old; to = I.left input.new })
        (record { writes = counts (O.faults output.old) (O.faults output.new); from = O.taken output.old; to = O.taken output.new })
        (record { told = D.told marks.entry.now; faults = counts (D.faults marks.entry.now) (D.faults result.0.now); from = D.state marks.entry.now; to = D.state result.0.now })
        (input.new ≡ input.old) (output.new ≡ output.old) (C.state cabinet.old) (C.state cabinet.new) result.1 }
    ensures lasts { Lasting (C.outlasts cabinet.old cabinet.new) (C.state cabinet.old) (C.state cabinet.new) }
    ensures told { D.told result.0.now ≡ D.told marks.entry.now }
    ensures loan { result.0.ghost_name ≡ L.disk }
{
    laws_of_lasting::<C>();
    match opened_marks::<D, L>(alloc, cabinet.catalogue(), marks) {
        Ok(mut feed) => {
            let end = run_input(alloc, &mut feed, cabinet, input, output);
            (closed_marks(feed), end)
        }
        Err(refusal) => {
            let (fault, marks) = refusal;
            (marks, status_of_opening(fault))
        }
    }
}

/// Opens the feed of the marks, makes the changes of the input on the cabinet, and closes the feed.
pub(crate) fn feed_on<C: Keeper, D: Disk, I: ByteSource, O: ByteSink>(
    alloc: Global,
    cabinet: &mut C,
    marks: &mut D,
    input: &mut I,
    output: &mut O,
) -> Status
    requires valid { IsValid (C.state cabinet.old).catalogue }
    requires ours { IsTrue (D.told marks.old) → IsMarksFile (C.state cabinet.old).catalogue.digest (D.state marks.old).seen }
    ensures feeds { FeedsOn (C.state cabinet.old).catalogue (counts (C.faults cabinet.old) (C.faults cabinet.new))
        (record { reads = counts (I.faults input.old) (I.faults input.new); from = I.left input.old; to = I.left input.new })
        (record { writes = counts (O.faults output.old) (O.faults output.new); from = O.taken output.old; to = O.taken output.new })
        (record { told = D.told marks.old; faults = counts (D.faults marks.old) (D.faults marks.new); from = D.state marks.old; to = D.state marks.new })
        (input.new ≡ input.old) (output.new ≡ output.old) (C.state cabinet.old) (C.state cabinet.new) result }
    ensures lasts { Lasting (C.outlasts cabinet.old cabinet.new) (C.state cabinet.old) (C.state cabinet.new) }
    ensures told { D.told marks.new ≡ D.told marks.old }
{
    feed_over::<C, D, I, O, Brand>(alloc, cabinet, marks, input, output).1
}
