//! How the journal of a disk is replayed.
ghost use Rattle.std.specs.Prelude.{◌≡◌, ◌+◌, ◌*◌, ◌≤◌, ◌^◌, IfErr, IfOk, IsTrue};
ghost use Rattle.catalog.specs.Valid.{IsValid};
ghost use Rattle.disk_model.specs.Content.{Same};
ghost use Rattle.disk_model.specs.Images.{ChangesBy};
ghost use Rattle.durable_cabinet.specs.Filed.{IsRefusedAs};
ghost use Rattle.durable_cabinet.specs.Images.{slots_for};
ghost use Rattle.durable_cabinet.specs.Openings.{IsReplayed, asked_for, disk_in};

use cabinet_records::{Replay, Restored};
use cache_file::CacheFile;
use catalog::Catalogue;
use disk_model::Disk;
use gate_journal::OpenFault;
use std::alloc::Global;

/// How many slots a half of the journal of a catalogue's cache has.
pub fn slots_for(catalogue: &Catalogue) -> u64
    ensures { result ≡ slots_for catalogue.now }
{
    2 * (u64::from(catalogue.kept_limit) + u64::from(catalogue.cut_limit)) + 64
}

/// The fault with this digest as the one that was asked for.
fn asked_for(digest: &[u8; 32], fault: OpenFault) -> OpenFault
    ensures { result ≡ asked_for digest.now fault }
{
    match fault {
        OpenFault::CatalogueDiffers(found, _) => OpenFault::CatalogueDiffers(found, *digest),
        OpenFault::NotACache => OpenFault::NotACache,
        OpenFault::BadRecord(slot) => OpenFault::BadRecord(slot),
        OpenFault::Spent => OpenFault::Spent,
        OpenFault::DiskFault => OpenFault::DiskFault,
        OpenFault::OutOfMemory => OpenFault::OutOfMemory,
    }
}

/// Opens the journal of a disk and replays its records, and opens no cabinet: no number of an opening is spent, and the disk is only read and
/// synced. A refusal hands the disk back: the records are no cache of the catalogue, the disk failed, or memory ran out, as `Cabinet::open`
/// refuses them; that the openings are spent is no refusal here.
pub fn replay<D: Disk>(
    alloc: Global,
    catalogue: &Catalogue,
    disk: D,
) -> Result<(CacheFile<D>, Restored), (OpenFault, D)>
    requires valid { IsValid catalogue.now }
    ensures told { D.told (disk_in result) ≡ D.told disk }
    ensures replayed { IfOk result (λ p. IsReplayed (D.told disk) catalogue.now (D.state p.0.disk) p.0.journal p.1.opening p.1.kept.items p.1.cuts.book) }
    ensures refused { IfErr result (λ r. IsRefusedAs (D.told disk) catalogue.now (D.state disk).seen (D.faults disk) (D.faults r.1) r.0) }
    ensures later { D.faults disk ≤ D.faults (disk_in result) }
    ensures quiet { IsTrue (D.told disk) → ChangesBy Same (D.state disk) (D.state (disk_in result)) }
{
    let mut replay = match Replay::new(alloc, catalogue) {
        Ok(replay) => replay,
        Err(_) => return Err((OpenFault::OutOfMemory, disk)),
    };
    let slots = slots_for(catalogue);
    match CacheFile::open(alloc, disk, &catalogue.digest, slots, &mut replay) {
        Err((fault, disk)) => {
            drop(replay);
            Err((asked_for(&catalogue.digest, fault), disk))
        }
        Ok(file) => match replay.restore(file.version()) {
            Ok(restored) => Ok((file, restored)),
            Err(slot) => Err((OpenFault::BadRecord(slot), file.into_disk())),
        },
    }
}
