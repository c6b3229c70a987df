//! The word that makes the changes of a link on the cache.
ghost use Rattle.std.specs.Prelude.{◌≡◌, IsTrue};
ghost use Rattle.catalog.specs.Valid.{IsValid};
ghost use Rattle.change_feed.specs.Files.{IsMarksFile};
ghost use Rattle.cut_follower.specs.Links.{LinkAt};
ghost use Rattle.durable_cabinet.specs.Images.{IsOurs};
ghost use Rattle.link_words.specs.Ends.{Follows};
ghost use Rattle.opened_cache.specs.Change.{DiskChange};
ghost use Rattle.opened_cache.specs.Crash.{LastsThrough};
ghost use Rattle.sessions.specs.Outside.{counts};

use crate::follow::follow_on;
use base::Clock;
use catalog::Catalogue;
use cut_follower::LinkEnd;
use disk_model::Disk;
use gate_journal::OpenFault;
use http_wire::Link;
use opened_cache::{Loan, close_cache, open_cache};
use std::alloc::Global;
use std::marker::Brand;

/// The word on the disk of a loan, which is handed back.
fn followed_over<'a, D: Disk, L: Link, M: Loan>(
    alloc: Global,
    catalogue: Catalogue,
    clock: Clock,
    disk: &'a mut D,
    marks: &mut D,
    link: &mut L,
) -> (&'a mut D, Result<LinkEnd, OpenFault>)
    requires valid { IsValid catalogue }
    requires loan { disk.ghost_name ≡ M.disk }
    requires ours { IsTrue (D.told disk.now) → IsOurs catalogue (D.state disk.now).seen }
    requires marks { IsTrue (D.told marks.old) → IsMarksFile catalogue.digest (D.state marks.old).seen }
    ensures follows { Follows catalogue clock
        (record { told = D.told disk.entry.now; faults = counts (D.faults disk.entry.now) (D.faults result.0.now); from = D.state disk.entry.now; to = D.state result.0.now })
        (record { told = D.told marks.old; faults = counts (D.faults marks.old) (D.faults marks.new); from = D.state marks.old; to = D.state marks.new })
        (record { left = L.left link.old; read_faults = L.ByteSource.faults link.old; taken = L.taken link.old; write_faults = L.ByteSink.faults link.old })
        (record { left = L.left link.new; read_faults = L.ByteSource.faults link.new; taken = L.taken link.new; write_faults = L.ByteSink.faults link.new })
        (link.new ≡ link.old) (marks.new ≡ marks.old) result.1 }
    ensures lasts { LastsThrough catalogue (record { told = D.told disk.entry.now; faults = counts (D.faults disk.entry.now) (D.faults result.0.now); from = D.state disk.entry.now; to = D.state result.0.now }) }
    ensures told { D.told result.0.now ≡ D.told disk.entry.now }
    ensures marks_told { D.told marks.new ≡ D.told marks.old }
    ensures loan { result.0.ghost_name ≡ M.disk }
{
    match open_cache::<D, M>(alloc, catalogue, clock, disk) {
        Ok(mut cabinet) => {
            let end = follow_on(alloc, &mut cabinet, marks, link);
            (close_cache(cabinet), end)
        }
        Err(refusal) => {
            let (fault, disk) = refusal;
            (disk, Err(fault))
        }
    }
}

/// Opens the cache of the disk, and then the feed of the marks, and makes the changes that come over the link. Each end comes as `Follows`
/// says.
pub(crate) fn follow<D: Disk, L: Link>(
    alloc: Global,
    catalogue: Catalogue,
    clock: Clock,
    disk: &mut D,
    marks: &mut D,
    link: &mut L,
) -> Result<LinkEnd, OpenFault>
    requires valid { IsValid catalogue }
    requires ours { IsTrue (D.told disk.old) → IsOurs catalogue (D.state disk.old).seen }
    requires marks { IsTrue (D.told marks.old) → IsMarksFile catalogue.digest (D.state marks.old).seen }
    ensures follows { Follows catalogue clock
        (record { told = D.told disk.old; faults = counts (D.faults disk.old) (D.faults disk.new); from = D.state disk.old; to = D.state disk.new })
        (record { told = D.told marks.old; faults = counts (D.faults marks.old) (D.faults marks.new); from = D.state marks.old; to = D.state marks.new })
        (record { left = L.left link.old; read_faults = L.ByteSource.faults link.old; taken = L.taken link.old; write_faults = L.ByteSink.faults link.old })
        (record { left = L.left link.new; read_faults = L.ByteSource.faults link.new; taken = L.taken link.new; write_faults = L.ByteSink.faults link.new })
        (link.new ≡ link.old) (marks.new ≡ marks.old) result }
    ensures lasts { LastsThrough catalogue (record { told = D.told disk.old; faults = counts (D.faults disk.old) (D.faults disk.new); from = D.state disk.old; to = D.state disk.new }) }
    ensures told { D.told disk.new ≡ D.told disk.old }
    ensures marks_told { D.told marks.new ≡ D.told marks.old }
{
    followed_over::<D, L, Brand>(alloc, catalogue, clock, disk, marks, link).1
}
