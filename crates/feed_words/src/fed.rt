//! The word that makes the changes of its input on the cache.
ghost use Rattle.std.specs.Prelude.{◌≡◌, IsTrue};
ghost use Rattle.catalog.specs.Valid.{IsValid};
ghost use Rattle.change_feed.specs.Files.{IsMarksFile};
ghost use Rattle.durable_cabinet.specs.Images.{IsOurs};
ghost use Rattle.feed_words.specs.Ends.{Feeds};
ghost use Rattle.opened_cache.specs.Change.{DiskChange};
ghost use Rattle.opened_cache.specs.Crash.{LastsThrough};
ghost use Rattle.sessions.specs.Outside.{InputChange, OutputChange, counts};

use crate::feeding::feed_on;
use base::Clock;
use catalog::Catalogue;
use command_status::{Status, status_of_opening};
use disk_model::Disk;
use http_wire::{ByteSink, ByteSource};
use opened_cache::{Loan, close_cache, open_cache};
use std::alloc::Global;
use std::marker::Brand;

/// The word on the disk of a loan, which is handed back.
fn fed_over<'a, D: Disk, I: ByteSource, O: ByteSink, L: Loan>(
    alloc: Global,
    catalogue: Catalogue,
    clock: Clock,
    disk: &'a mut D,
    marks: &mut D,
    input: &mut I,
    output: &mut O,
) -> (&'a mut D, Status)
    requires valid { IsValid catalogue }
    requires loan { disk.ghost_name ≡ L.disk }
    requires ours { IsTrue (D.told disk.now) → IsOurs catalogue (D.state disk.now).seen }
    requires marks { IsTrue (D.told marks.old) → IsMarksFile catalogue.digest (D.state marks.old).seen }
    ensures feeds { Feeds catalogue clock
        (record { reads = counts (I.faults input.old) (I.faults input.new); from = I.left input.old; to = I.left input.new })
        (record { writes = counts (O.faults output.old) (O.faults output.new); from = O.taken output.old; to = O.taken output.new })
        (record { told = D.told disk.entry.now; faults = counts (D.faults disk.entry.now) (D.faults result.0.now); from = D.state disk.entry.now; to = D.state result.0.now })
        (record { told = D.told marks.old; faults = counts (D.faults marks.old) (D.faults marks.new); from = D.state marks.old; to = D.state marks.new })
        (input.new ≡ input.old) (output.new ≡ output.old) (marks.new ≡ marks.old) result.1 }
    ensures lasts { LastsThrough catalogue (record { told = D.told disk.entry.now; faults = counts (D.faults disk.entry.now) (D.faults result.0.now); from = D.state disk.entry.now; to = D.state result.0.now }) }
    ensures told { D.told result.0.now ≡ D.told disk.entry.now }
    ensures marks_told { D.told marks.new ≡ D.told marks.old }
    ensures loan { result.0.ghost_name ≡ L.disk }
{
    match open_cache::<D, L>(alloc, catalogue, clock, disk) {
        Ok(mut cabinet) => {
            let end = feed_on(alloc, &mut cabinet, marks, input, output);
            (close_cache(cabinet), end)
        }
        Err(refusal) => {
            let (fault, disk) = refusal;
            (disk, status_of_opening(fault))
        }
    }
}

/// Opens the cache of the disk, and then the feed of the marks, reads the input whole, makes the changes of its lines, one after the
/// other, and writes what became of each. Each end comes as `Feeds` says.
pub(crate) fn feed<D: Disk, I: ByteSource, O: ByteSink>(
    alloc: Global,
    catalogue: Catalogue,
    clock: Clock,
    disk: &mut D,
    marks: &mut D,
    input: &mut I,
    output: &mut O,
) -> Status
    requires valid { IsValid catalogue }
    requires ours { IsTrue (D.told disk.old) → IsOurs catalogue (D.state disk.old).seen }
    requires marks { IsTrue (D.told marks.old) → IsMarksFile catalogue.digest (D.state marks.old).seen }
    ensures feeds { Feeds catalogue clock
        (record { reads = counts (I.faults input.old) (I.faults input.new); from = I.left input.old; to = I.left input.new })
        (record { writes = counts (O.faults output.old) (O.faults output.new); from = O.taken output.old; to = O.taken output.new })
        (record { told = D.told disk.old; faults = counts (D.faults disk.old) (D.faults disk.new); from = D.state disk.old; to = D.state disk.new })
        (record { told = D.told marks.old; faults = counts (D.faults marks.old) (D.faults marks.new); from = D.state marks.old; to = D.state marks.new })
        (input.new ≡ input.old) (output.new ≡ output.old) (marks.new ≡ marks.old) result }
    ensures lasts { LastsThrough catalogue (record { told = D.told disk.old; faults = counts (D.faults disk.old) (D.faults disk.new); from = D.state disk.old; to = D.state disk.new }) }
    ensures told { D.told disk.new ≡ D.told disk.old }
    ensures marks_told { D.told marks.new ≡ D.told marks.old }
{
    fed_over::<D, I, O, Brand>(alloc, catalogue, clock, disk, marks, input, output).1
}
