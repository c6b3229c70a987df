//! The word that sends the posts of an outbox.
ghost use Rattle.std.specs.Prelude.{◌≡◌, IsTrue};
ghost use Rattle.catalog.specs.Valid.{IsValid};
ghost use Rattle.cut_follower.specs.Links.{LinkAt};
ghost use Rattle.link_words.specs.Ends.{LeadsOver};
ghost use Rattle.opened_cache.specs.Change.{DiskChange};
ghost use Rattle.outbox.specs.Files.{IsOutboxFile};
ghost use Rattle.sessions.specs.Outside.{counts};

use catalog::Catalogue;
use cut_follower::{LinkEnd, lead_link};
use disk_model::Disk;
use feed_words::{closed_outbox, opened_outbox};
use gate_journal::OpenFault;
use http_wire::Link;
use opened_cache::Loan;
use std::alloc::Global;
use std::marker::Brand;

/// The word on the outbox of a loan, which is handed back.
fn led_over<'o, D: Disk, L: Link, N: Loan>(
    alloc: Global,
    catalogue: &Catalogue,
    outbox: &'o mut D,
    link: &mut L,
) -> (&'o mut D, Result<LinkEnd, OpenFault>)
    requires valid { IsValid catalogue.now }
    requires loan { outbox.ghost_name ≡ N.disk }
    requires ours { IsTrue (D.told outbox.now) → IsOutboxFile catalogue.now (D.state outbox.now).seen }
    ensures leads { LeadsOver catalogue.now
        (record { told = D.told outbox.entry.now; faults = counts (D.faults outbox.entry.now) (D.faults result.0.now); from = D.state outbox.entry.now; to = D.state result.0.now })
        (record { left = L.left link.old; read_faults = L.ByteSource.faults link.old; taken = L.taken link.old; write_faults = L.ByteSink.faults link.old })
        (record { left = L.left link.new; read_faults = L.ByteSource.faults link.new; taken = L.taken link.new; write_faults = L.ByteSink.faults link.new })
        (link.new ≡ link.old) result.1 }
    ensures told { D.told result.0.now ≡ D.told outbox.entry.now }
    ensures loan { result.0.ghost_name ≡ N.disk }
{
    match opened_outbox::<D, N>(alloc, catalogue, outbox) {
        Ok(mut outbox) => {
            let end = lead_link(&mut outbox, link);
            (closed_outbox(outbox), Ok(end))
        }
        Err(refusal) => {
            let (fault, outbox) = refusal;
            (outbox, Err(fault))
        }
    }
}

/// Opens the outbox, and sends its posts over the link until each was heard as seen. Each end comes as `LeadsOver` says.
pub(crate) fn lead<D: Disk, L: Link>(
    alloc: Global,
    catalogue: &Catalogue,
    outbox: &mut D,
    link: &mut L,
) -> Result<LinkEnd, OpenFault>
    requires valid { IsValid catalogue.now }
    requires ours { IsTrue (D.told outbox.old) → IsOutboxFile catalogue.now (D.state outbox.old).seen }
    ensures leads { LeadsOver catalogue.now
        (record { told = D.told outbox.old; faults = counts (D.faults outbox.old) (D.faults outbox.new); from = D.state outbox.old; to = D.state outbox.new })
        (record { left = L.left link.old; read_faults = L.ByteSource.faults link.old; taken = L.taken link.old; write_faults = L.ByteSink.faults link.old })
        (record { left = L.left link.new; read_faults = L.ByteSource.faults link.new; taken = L.taken link.new; write_faults = L.ByteSink.faults link.new })
        (link.new ≡ link.old) result }
    ensures told { D.told outbox.new ≡ D.told outbox.old }
{
    led_over::<D, L, Brand>(alloc, catalogue, outbox, link).1
}
