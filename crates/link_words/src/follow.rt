//! The changes that come over a link, made on an opened cabinet with the marks of a disk.
ghost use Rattle.std.specs.Prelude.{◌≡◌, IsTrue};
ghost use Rattle.cache_core.specs.Lasting.{Lasting};
ghost use Rattle.catalog.specs.Valid.{IsValid};
ghost use Rattle.change_feed.specs.Files.{IsMarksFile};
ghost use Rattle.cut_follower.specs.Links.{LinkAt};
ghost use Rattle.link_words.specs.Ends.{FollowsWith};
ghost use Rattle.opened_cache.specs.Change.{DiskChange};
ghost use Rattle.sessions.specs.Outside.{counts};

use cabinet::Keeper;
use cache_core::laws_of_lasting;
use cut_follower::{LinkEnd, follow_link};
use disk_model::Disk;
use feed_words::{closed_marks, opened_marks};
use gate_journal::OpenFault;
use http_wire::Link;
use opened_cache::Loan;
use std::alloc::Global;
use std::marker::Brand;

/// Makes the changes of a link with marks that are lent, which are handed back.
fn follow_over<'m, K: Keeper, D: Disk, L: Link, M: Loan>(
    alloc: Global,
    cabinet: &mut K,
    marks: &'m mut D,
    link: &mut L,
) -> (&'m mut D, Result<LinkEnd, OpenFault>)
    requires valid { IsValid (K.state cabinet.old).catalogue }
    requires loan { marks.ghost_name ≡ M.disk }
    requires ours { IsTrue (D.told marks.now) → IsMarksFile (K.state cabinet.old).catalogue.digest (D.state marks.now).seen }
    ensures follows { FollowsWith (K.state cabinet.old).catalogue (counts (K.faults cabinet.old) (K.faults cabinet.new))
        (record { told = D.told marks.entry.now; faults = counts (D.faults marks.entry.now) (D.faults result.0.now); from = D.state marks.entry.now; to = D.state result.0.now })
        (record { left = L.left link.old; read_faults = L.ByteSource.faults link.old; taken = L.taken link.old; write_faults = L.ByteSink.faults link.old })
        (record { left = L.left link.new; read_faults = L.ByteSource.faults link.new; taken = L.taken link.new; write_faults = L.ByteSink.faults link.new })
        (link.new ≡ link.old) (K.state cabinet.old) (K.state cabinet.new) result.1 }
    ensures lasts { Lasting (K.outlasts cabinet.old cabinet.new) (K.state cabinet.old) (K.state cabinet.new) }
    ensures told { D.told result.0.now ≡ D.told marks.entry.now }
    ensures loan { result.0.ghost_name ≡ M.disk }
{
    laws_of_lasting::<K>();
    match opened_marks::<D, M>(alloc, cabinet.catalogue(), marks) {
        Ok(mut feed) => match cabinet.catalogue().copy(alloc) {
            Ok(catalogue) => {
                let end = follow_link(alloc, &catalogue, &mut feed, cabinet, link);
                (closed_marks(feed), Ok(end))
            }
            Err(_) => (closed_marks(feed), Err(OpenFault::OutOfMemory)),
        },
        Err(refusal) => {
            let (fault, marks) = refusal;
            (marks, Err(fault))
        }
    }
}

/// Opens the feed of the marks, makes the changes of the link on the cabinet, and closes the feed.
pub(crate) fn follow_on<K: Keeper, D: Disk, L: Link>(
    alloc: Global,
    cabinet: &mut K,
    marks: &mut D,
    link: &mut L,
) -> Result<LinkEnd, OpenFault>
    requires valid { IsValid (K.state cabinet.old).catalogue }
    requires ours { IsTrue (D.told marks.old) → IsMarksFile (K.state cabinet.old).catalogue.digest (D.state marks.old).seen }
    ensures follows { FollowsWith (K.state cabinet.old).catalogue (counts (K.faults cabinet.old) (K.faults cabinet.new))
        (record { told = D.told marks.old; faults = counts (D.faults marks.old) (D.faults marks.new); from = D.state marks.old; to = D.state marks.new })
        (record { left = L.left link.old; read_faults = L.ByteSource.faults link.old; taken = L.taken link.old; write_faults = L.ByteSink.faults link.old })
        (record { left = L.left link.new; read_faults = L.ByteSource.faults link.new; taken = L.taken link.new; write_faults = L.ByteSink.faults link.new })
        (link.new ≡ link.old) (K.state cabinet.old) (K.state cabinet.new) result }
    ensures lasts { Lasting (K.outlasts cabinet.old cabinet.new) (K.state cabinet.old) (K.state cabinet.new) }
    ensures told { D.told marks.new ≡ D.told marks.old }
{
    follow_over::<K, D, L, Brand>(alloc, cabinet, marks, link).1
}
