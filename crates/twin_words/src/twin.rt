//! The words of a twin, done.
ghost use Rattle.std.specs.Prelude.{◌≡◌, ◌↔◌, None, Some, IsTrue};
ghost use Rattle.catalog.specs.Valid.{IsValid};
ghost use Rattle.change_feed.specs.Files.{IsMarksFile};
ghost use Rattle.durable_cabinet.specs.Images.{IsOurs};
ghost use Rattle.opened_cache.specs.Crash.{LastsThrough};
ghost use Rattle.outbox.specs.Files.{IsOutboxFile};
ghost use Rattle.sessions.specs.Outside.{InputChange, OutputChange, counts};
ghost use Rattle.twin_words.specs.Ends.{CacheLasts, IsFitFor, IsFitUnder, SourceChange, Stays, TwinChange, TwinTells, Twins, WordEnds, WordLasts, text_of};
ghost use Rattle.twin_words.specs.Made.{change_of};
ghost use Rattle.twin_words.specs.Words.{twin_word};

use crate::disks::{TwinDisks, Unopened};
use crate::making::make_twin;
use crate::opening::opened_twin;
use crate::running::{FinishedTwin, run_input};
use crate::words::{TwinWord, twin_word};
use base::Clock;
use catalog::Catalogue;
use change_feed::laws_of_marks;
use command_setup::{read_configuration, status_of_refusal};
use command_status::{Status, status_of_opening};
use cut_follower::laws_of_lossy_links;
use disk_model::Disk;
use exact_ratio::Words;
use http_wire::{ByteSink, ByteSource};
use opened_cache::Loan;
use outbox::laws_of_outboxes;
use source_render::Source;
use std::alloc::Global;
use std::marker::Brand;

/// Opens the files of a twin on three disks that are lent, runs the lines of the input, and hands the loans back.
fn twin_over<
    'd,
    'm,
    'o,
    D: Disk,
    M: Disk,
    N: Disk,
    A: Loan,
    B: Loan,
    C: Loan,
    S: Source,
    I: ByteSource,
    O: ByteSink,
>(
    alloc: Global,
    catalogue: Catalogue,
    input: &mut I,
    output: &mut O,
    source: &mut S,
    clock: Clock,
    disk: &'d mut D,
    marks: &'m mut M,
    outbox: &'o mut N,
) -> (&'d mut D, &'m mut M, &'o mut N, Status)
    requires valid { IsValid catalogue }
    requires loan { disk.ghost_name ≡ A.disk }
    requires marks_loan { marks.ghost_name ≡ B.disk }
    requires outbox_loan { outbox.ghost_name ≡ C.disk }
    requires ours { IsTrue (D.told disk.now) → IsOurs catalogue (D.state disk.now).seen }
    requires marks_ours { IsTrue (M.told marks.now) → IsMarksFile catalogue.digest (M.state marks.now).seen }
    requires outbox_ours { IsTrue (N.told outbox.now) → IsOutboxFile catalogue (N.state outbox.now).seen }
    ensures twins { Twins catalogue clock
        (record {
          input = record { reads = counts (I.faults input.old) (I.faults input.new); from = I.left input.old; to = I.left input.new };
          output = record { writes = counts (O.faults output.old) (O.faults output.new); from = O.taken output.old; to = O.taken output.new };
          source = record { told = S.told source.old; faults = counts (S.faults source.old) (S.faults source.new) };
          cache = change_of D.told D.state D.faults disk.entry.now result.0.now;
          marks = change_of M.told M.state M.faults marks.entry.now result.1.now;
          outbox = change_of N.told N.state N.faults outbox.entry.now result.2.now;
        })
        (record { input = (input.new ≡ input.old); output = (output.new ≡ output.old); source = (source.new ≡ source.old); cache = (result.0.now ≡ disk.entry.now); marks = (result.1.now ≡ marks.entry.now); outbox = (result.2.now ≡ outbox.entry.now) })
        result.3 }
    ensures lasts { LastsThrough catalogue (change_of D.told D.state D.faults disk.entry.now result.0.now) }
    ensures told { D.told result.0.now ≡ D.told disk.entry.now }
    ensures marks_told { M.told result.1.now ≡ M.told marks.entry.now }
    ensures outbox_told { N.told result.2.now ≡ N.told outbox.entry.now }
    ensures source_told { S.told source.new ≡ S.told source.old }
    ensures loan_back { result.0.ghost_name ≡ A.disk }
    ensures marks_back { result.1.ghost_name ≡ B.disk }
    ensures outbox_back { result.2.ghost_name ≡ C.disk }
{
    laws_of_lossy_links();
    laws_of_marks();
    laws_of_outboxes();
    match opened_twin::<D, M, N, A, B, C>(alloc, catalogue, clock, disk, marks, outbox) {
        Ok(twin) => {
            let FinishedTwin { end, disks } = run_input(alloc, twin, source, input, output);
            let TwinDisks {
                cache,
                marks,
                outbox,
            } = disks;
            (cache, marks, outbox, end)
        }
        Err(refusal) => {
            let Unopened { cause, disks } = refusal;
            let TwinDisks {
                cache,
                marks,
                outbox,
            } = disks;
            (cache, marks, outbox, status_of_opening(cause))
        }
    }
}

/// Opens the cache of the disk, the feed of the marks and the outbox, in this order, reads the input whole, and runs its lines. Each end
/// comes as `Twins` says.
fn run_files<D: Disk, M: Disk, N: Disk, S: Source, I: ByteSource, O: ByteSink>(
    alloc: Global,
    catalogue: Catalogue,
    input: &mut I,
    output: &mut O,
    source: &mut S,
    clock: Clock,
    disk: &mut D,
    marks: &mut M,
    outbox: &mut N,
) -> Status
    requires valid { IsValid catalogue }
    requires ours { IsTrue (D.told disk.old) → IsOurs catalogue (D.state disk.old).seen }
    requires marks_ours { IsTrue (M.told marks.old) → IsMarksFile catalogue.digest (M.state marks.old).seen }
    requires outbox_ours { IsTrue (N.told outbox.old) → IsOutboxFile catalogue (N.state outbox.old).seen }
    ensures twins { Twins catalogue clock
        (record {
          input = record { reads = counts (I.faults input.old) (I.faults input.new); from = I.left input.old; to = I.left input.new };
          output = record { writes = counts (O.faults output.old) (O.faults output.new); from = O.taken output.old; to = O.taken output.new };
          source = record { told = S.told source.old; faults = counts (S.faults source.old) (S.faults source.new) };
          cache = change_of D.told D.state D.faults disk.old disk.new;
          marks = change_of M.told M.state M.faults marks.old marks.new;
          outbox = change_of N.told N.state N.faults outbox.old outbox.new;
        })
        (record { input = (input.new ≡ input.old); output = (output.new ≡ output.old); source = (source.new ≡ source.old); cache = (disk.new ≡ disk.old); marks = (marks.new ≡ marks.old); outbox = (outbox.new ≡ outbox.old) })
        result }
    ensures lasts { LastsThrough catalogue (change_of D.told D.state D.faults disk.old disk.new) }
    ensures told { D.told disk.new ≡ D.told disk.old }
    ensures marks_told { M.told marks.new ≡ M.told marks.old }
    ensures outbox_told { N.told outbox.new ≡ N.told outbox.old }
    ensures source_told { S.told source.new ≡ S.told source.old }
{
    twin_over::<D, M, N, Brand, Brand, Brand, S, I, O>(
        alloc, catalogue, input, output, source, clock, disk, marks, outbox,
    )
    .3
}

/// Does a word under a catalogue.
fn done_under<D: Disk, S: Source, I: ByteSource, O: ByteSink>(
    alloc: Global,
    word: TwinWord,
    catalogue: Catalogue,
    input: &mut I,
    output: &mut O,
    source: &mut S,
    clock: Clock,
    disk: &mut D,
    marks: &mut D,
    outbox: &mut D,
) -> Status
    requires valid { IsValid catalogue }
    requires fit { IsFitUnder catalogue word (text_of D.told D.state disk.old) (text_of D.told D.state marks.old) (text_of D.told D.state outbox.old) }
    ensures ends { WordEnds
        (record {
          input = record { reads = counts (I.faults input.old) (I.faults input.new); from = I.left input.old; to = I.left input.new };
          output = record { writes = counts (O.faults output.old) (O.faults output.new); from = O.taken output.old; to = O.taken output.new };
          source = record { told = S.told source.old; faults = counts (S.faults source.old) (S.faults source.new) };
          cache = change_of D.told D.state D.faults disk.old disk.new;
          marks = change_of D.told D.state D.faults marks.old marks.new;
          outbox = change_of D.told D.state D.faults outbox.old outbox.new;
        })
        (record { input = (input.new ≡ input.old); output = (output.new ≡ output.old); source = (source.new ≡ source.old); cache = (disk.new ≡ disk.old); marks = (marks.new ≡ marks.old); outbox = (outbox.new ≡ outbox.old) })
        clock word catalogue result }
    ensures lasts { WordLasts catalogue (change_of D.told D.state D.faults disk.old disk.new) word }
    ensures told { D.told disk.new ≡ D.told disk.old }
    ensures marks_told { D.told marks.new ≡ D.told marks.old }
    ensures outbox_told { D.told outbox.new ≡ D.told outbox.old }
    ensures source_told { S.told source.new ≡ S.told source.old }
{
    match word {
        TwinWord::Make => make_twin(&catalogue, disk, marks, outbox, output),
        TwinWord::Run => run_files(
            alloc, catalogue, input, output, source, clock, disk, marks, outbox,
        ),
    }
}

/// Does a word under the catalogue that is read.
fn do_word<D: Disk, S: Source, I: ByteSource, O: ByteSink>(
    alloc: Global,
    word: TwinWord,
    catalogue: &mut I,
    input: &mut I,
    output: &mut O,
    source: &mut S,
    clock: Clock,
    disk: &mut D,
    marks: &mut D,
    outbox: &mut D,
) -> Status
    requires { IsFitFor (Some word) (I.left catalogue.old) (text_of D.told D.state disk.old) (text_of D.told D.state marks.old) (text_of D.told D.state outbox.old) }
    ensures never { result ≡ Status.Usage → ⊥ }
    ensures tells { TwinTells (record { reads = counts (I.faults catalogue.old) (I.faults catalogue.new); from = I.left catalogue.old; to = I.left catalogue.new })
        (record {
          input = record { reads = counts (I.faults input.old) (I.faults input.new); from = I.left input.old; to = I.left input.new };
          output = record { writes = counts (O.faults output.old) (O.faults output.new); from = O.taken output.old; to = O.taken output.new };
          source = record { told = S.told source.old; faults = counts (S.faults source.old) (S.faults source.new) };
          cache = change_of D.told D.state D.faults disk.old disk.new;
          marks = change_of D.told D.state D.faults marks.old marks.new;
          outbox = change_of D.told D.state D.faults outbox.old outbox.new;
        })
        (catalogue.new ≡ catalogue.old)
        (record { input = (input.new ≡ input.old); output = (output.new ≡ output.old); source = (source.new ≡ source.old); cache = (disk.new ≡ disk.old); marks = (marks.new ≡ marks.old); outbox = (outbox.new ≡ outbox.old) })
        clock (Some word) result }
    ensures lasts { CacheLasts (record { reads = counts (I.faults catalogue.old) (I.faults catalogue.new); from = I.left catalogue.old; to = I.left catalogue.new }) (change_of D.told D.state D.faults disk.old disk.new) (disk.new ≡ disk.old) (Some word) }
    ensures told { D.told disk.new ≡ D.told disk.old }
    ensures marks_told { D.told marks.new ≡ D.told marks.old }
    ensures outbox_told { D.told outbox.new ≡ D.told outbox.old }
    ensures source_told { S.told source.new ≡ S.told source.old }
{
    match read_configuration(alloc, catalogue) {
        Ok(read) => done_under(
            alloc, word, read, input, output, source, clock, disk, marks, outbox,
        ),
        Err(refusal) => status_of_refusal(refusal),
    }
}

/// Does what the words of a twin say, under the catalogue that it reads; a catalogue of no bytes is the built-in one. `twin make` makes an
/// empty cache, an empty file of marks and an empty outbox, in this order, and writes that they are made. `twin` opens the cache, the feed
/// of the marks and the outbox, in this order, reads the input whole, and runs its lines, one after the other: each orders an event of a
/// lossy link between the leader, whose posts the outbox has, and the follower, whose marks and cache they are. What became of each is
/// written at once. A stop closes the files of a side and opens them again.
///
/// `Usage` exactly where the words are neither; each other status comes as `TwinTells` says: a refused file, at the start or at a stop, ends
/// the run with the status of its cause, a line that is no event with its number, and want of memory with its own. The follower is in
/// step with the leader, whatever the lines let happen, and each tile that it answers is above each cut that was applied before and covers
/// it (`KeepsPromise`). At every moment a crash leaves of the cache what `CacheLasts` says, and of the marks and the outbox what
/// `HasTwinned` does. Modelled disks have to hold files of this program, by the catalogue that is read, where they are opened.
pub fn run_twin<D: Disk, S: Source, I: ByteSource, O: ByteSink>(
    alloc: Global,
    words: &[Words],
    catalogue: &mut I,
    input: &mut I,
    output: &mut O,
    source: &mut S,
    clock: Clock,
    disk: &mut D,
    marks: &mut D,
    outbox: &mut D,
) -> Status
    requires { IsFitFor (twin_word words.now) (I.left catalogue.old) (text_of D.told D.state disk.old) (text_of D.told D.state marks.old) (text_of D.told D.state outbox.old) }
    ensures usage { (result ≡ Status.Usage) ↔ (twin_word words.now ≡ None) }
    ensures tells { TwinTells (record { reads = counts (I.faults catalogue.old) (I.faults catalogue.new); from = I.left catalogue.old; to = I.left catalogue.new })
        (record {
          input = record { reads = counts (I.faults input.old) (I.faults input.new); from = I.left input.old; to = I.left input.new };
          output = record { writes = counts (O.faults output.old) (O.faults output.new); from = O.taken output.old; to = O.taken output.new };
          source = record { told = S.told source.old; faults = counts (S.faults source.old) (S.faults source.new) };
          cache = change_of D.told D.state D.faults disk.old disk.new;
          marks = change_of D.told D.state D.faults marks.old marks.new;
          outbox = change_of D.told D.state D.faults outbox.old outbox.new;
        })
        (catalogue.new ≡ catalogue.old)
        (record { input = (input.new ≡ input.old); output = (output.new ≡ output.old); source = (source.new ≡ source.old); cache = (disk.new ≡ disk.old); marks = (marks.new ≡ marks.old); outbox = (outbox.new ≡ outbox.old) })
        clock (twin_word words.now) result }
    ensures lasts { CacheLasts (record { reads = counts (I.faults catalogue.old) (I.faults catalogue.new); from = I.left catalogue.old; to = I.left catalogue.new }) (change_of D.told D.state D.faults disk.old disk.new) (disk.new ≡ disk.old) (twin_word words.now) }
    ensures told { D.told disk.new ≡ D.told disk.old }
    ensures marks_told { D.told marks.new ≡ D.told marks.old }
    ensures outbox_told { D.told outbox.new ≡ D.told outbox.old }
    ensures source_told { S.told source.new ≡ S.told source.old }
{
    match twin_word(words) {
        Some(word) => do_word(
            alloc, word, catalogue, input, output, source, clock, disk, marks, outbox,
        ),
        None => Status::Usage,
    }
}
