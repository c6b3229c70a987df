//! The words of a feed, done.
ghost use Rattle.std.specs.Prelude.{◌≡◌, ◌↔◌, None, Some, IsTrue};
ghost use Rattle.catalog.specs.Valid.{IsValid};
ghost use Rattle.feed_words.specs.Complete.{IsComplete};
ghost use Rattle.feed_words.specs.Ends.{CacheLasts, FeedChange, FeedTells, IsFitFor, IsFitUnder, Stays, WordEnds, WordLasts};
ghost use Rattle.feed_words.specs.Words.{feed_word};
ghost use Rattle.opened_cache.specs.Change.{DiskChange};
ghost use Rattle.sessions.specs.Outside.{InputChange, OutputChange, counts};

use crate::fed::feed;
use crate::making::make_marks;
use crate::words::{FeedWord, feed_word};
use base::Clock;
use catalog::Catalogue;
use command_setup::{read_configuration, status_of_refusal};
use command_status::Status;
use disk_model::Disk;
use exact_ratio::Words;
use http_wire::{ByteSink, ByteSource};
use std::alloc::Global;

/// Does a word under a catalogue.
fn done_under<D: Disk, I: ByteSource, O: ByteSink>(
    alloc: Global,
    word: FeedWord,
    catalogue: Catalogue,
    input: &mut I,
    output: &mut O,
    clock: Clock,
    disk: &mut D,
    marks: &mut D,
) -> Status
    requires valid { IsValid catalogue }
    requires fit { IsFitUnder catalogue word (D.told disk.old) (D.state disk.old).seen (D.told marks.old) (D.state marks.old).seen }
    ensures ends { WordEnds
        (record { reads = counts (I.faults input.old) (I.faults input.new); from = I.left input.old; to = I.left input.new })
        (record { writes = counts (O.faults output.old) (O.faults output.new); from = O.taken output.old; to = O.taken output.new })
        (record { told = D.told disk.old; faults = counts (D.faults disk.old) (D.faults disk.new); from = D.state disk.old; to = D.state disk.new })
        (record { told = D.told marks.old; faults = counts (D.faults marks.old) (D.faults marks.new); from = D.state marks.old; to = D.state marks.new })
        (record { input = (input.new ≡ input.old); output = (output.new ≡ output.old); cache = (disk.new ≡ disk.old); marks = (marks.new ≡ marks.old) })
        clock word catalogue result }
    ensures lasts { WordLasts catalogue (record { told = D.told disk.old; faults = counts (D.faults disk.old) (D.faults disk.new); from = D.state disk.old; to = D.state disk.new }) (disk.new ≡ disk.old) word }
    ensures told { D.told disk.new ≡ D.told disk.old }
    ensures marks_told { D.told marks.new ≡ D.told marks.old }
{
    match word {
        FeedWord::Make => make_marks(&catalogue, marks, output),
        FeedWord::Run => feed(alloc, catalogue, clock, disk, marks, input, output),
    }
}

/// Does a word under the catalogue that is read.
fn do_word<D: Disk, I: ByteSource, O: ByteSink>(
    alloc: Global,
    word: FeedWord,
    catalogue: &mut I,
    input: &mut I,
    output: &mut O,
    clock: Clock,
    disk: &mut D,
    marks: &mut D,
) -> Status
    requires { IsFitFor (Some word) (I.left catalogue.old) (D.told disk.old) (D.state disk.old).seen (D.told marks.old) (D.state marks.old).seen }
    ensures never { result ≡ Status.Usage → ⊥ }
    ensures tells { FeedTells
        (record {
          catalogue = record { reads = counts (I.faults catalogue.old) (I.faults catalogue.new); from = I.left catalogue.old; to = I.left catalogue.new };
          input = record { reads = counts (I.faults input.old) (I.faults input.new); from = I.left input.old; to = I.left input.new };
          output = record { writes = counts (O.faults output.old) (O.faults output.new); from = O.taken output.old; to = O.taken output.new };
          cache = record { told = D.told disk.old; faults = counts (D.faults disk.old) (D.faults disk.new); from = D.state disk.old; to = D.state disk.new };
          marks = record { told = D.told marks.old; faults = counts (D.faults marks.old) (D.faults marks.new); from = D.state marks.old; to = D.state marks.new };
        })
        (catalogue.new ≡ catalogue.old)
        (record { input = (input.new ≡ input.old); output = (output.new ≡ output.old); cache = (disk.new ≡ disk.old); marks = (marks.new ≡ marks.old) })
        clock (Some word) result }
    ensures lasts { CacheLasts
        (record { reads = counts (I.faults catalogue.old) (I.faults catalogue.new); from = I.left catalogue.old; to = I.left catalogue.new })
        (record { told = D.told disk.old; faults = counts (D.faults disk.old) (D.faults disk.new); from = D.state disk.old; to = D.state disk.new })
        (disk.new ≡ disk.old) }
    ensures told { D.told disk.new ≡ D.told disk.old }
    ensures marks_told { D.told marks.new ≡ D.told marks.old }
{
    match read_configuration(alloc, catalogue) {
        Ok(read) => done_under(alloc, word, read, input, output, clock, disk, marks),
        Err(refusal) => status_of_refusal(refusal),
    }
}

/// Does what the words of a feed say, under the catalogue that it reads; a catalogue of no bytes is the built-in one. `feed make` makes an
/// empty file of marks, and writes that it is made. `feed` opens the cache of the disk, and then the feed of the marks, reads the input
/// whole, and makes the changes of its lines on the cache, one after the other; what became of each is written at once, and ends nothing
/// but where memory runs out or a write fails. A line is the number of a change, of 1 to 18 digits without a leading zero, one blank, and a
/// cover.
///
/// `Usage` exactly where the words are neither; each other status comes as `FeedTells` says, so that a feed whose files and lines are in
/// order is done unless something failed or memory ran out (`IsComplete`). At every moment a crash leaves of the cache
/// what `CacheLasts` says, and of the marks what `HasFed` does. Modelled disks have to hold files of this program, by the catalogue that is
/// read, where they are opened.
pub fn run_feed<D: Disk, I: ByteSource, O: ByteSink>(
    alloc: Global,
    words: &[Words],
    catalogue: &mut I,
    input: &mut I,
    output: &mut O,
    clock: Clock,
    disk: &mut D,
    marks: &mut D,
) -> Status
    requires { IsFitFor (feed_word words.now) (I.left catalogue.old) (D.told disk.old) (D.state disk.old).seen (D.told marks.old) (D.state marks.old).seen }
    ensures usage { (result ≡ Status.Usage) ↔ (feed_word words.now ≡ None) }
    ensures tells { FeedTells
        (record {
          catalogue = record { reads = counts (I.faults catalogue.old) (I.faults catalogue.new); from = I.left catalogue.old; to = I.left catalogue.new };
          input = record { reads = counts (I.faults input.old) (I.faults input.new); from = I.left input.old; to = I.left input.new };
          output = record { writes = counts (O.faults output.old) (O.faults output.new); from = O.taken output.old; to = O.taken output.new };
          cache = record { told = D.told disk.old; faults = counts (D.faults disk.old) (D.faults disk.new); from = D.state disk.old; to = D.state disk.new };
          marks = record { told = D.told marks.old; faults = counts (D.faults marks.old) (D.faults marks.new); from = D.state marks.old; to = D.state marks.new };
        })
        (catalogue.new ≡ catalogue.old)
        (record { input = (input.new ≡ input.old); output = (output.new ≡ output.old); cache = (disk.new ≡ disk.old); marks = (marks.new ≡ marks.old) })
        clock (feed_word words.now) result }
    ensures complete { IsComplete
        (record {
          catalogue = record { reads = counts (I.faults catalogue.old) (I.faults catalogue.new); from = I.left catalogue.old; to = I.left catalogue.new };
          input = record { reads = counts (I.faults input.old) (I.faults input.new); from = I.left input.old; to = I.left input.new };
          output = record { writes = counts (O.faults output.old) (O.faults output.new); from = O.taken output.old; to = O.taken output.new };
          cache = record { told = D.told disk.old; faults = counts (D.faults disk.old) (D.faults disk.new); from = D.state disk.old; to = D.state disk.new };
          marks = record { told = D.told marks.old; faults = counts (D.faults marks.old) (D.faults marks.new); from = D.state marks.old; to = D.state marks.new };
        })
        clock (feed_word words.now) result }
    ensures lasts { CacheLasts
        (record { reads = counts (I.faults catalogue.old) (I.faults catalogue.new); from = I.left catalogue.old; to = I.left catalogue.new })
        (record { told = D.told disk.old; faults = counts (D.faults disk.old) (D.faults disk.new); from = D.state disk.old; to = D.state disk.new })
        (disk.new ≡ disk.old) }
    ensures told { D.told disk.new ≡ D.told disk.old }
    ensures marks_told { D.told marks.new ≡ D.told marks.old }
{
    match feed_word(words) {
        Some(word) => do_word(alloc, word, catalogue, input, output, clock, disk, marks),
        None => Status::Usage,
    }
}
