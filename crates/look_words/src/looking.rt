//! What the disk of a cache holds, seen without opening the cache.
ghost use Rattle.std.specs.Prelude.{◌≡◌, ◌≤◌, IfErr, IfOk, IsTrue};
ghost use Rattle.catalog.specs.Valid.{IsValid};
ghost use Rattle.disk_model.specs.Content.{Same};
ghost use Rattle.disk_model.specs.Images.{ChangesBy};
ghost use Rattle.durable_cabinet.specs.Filed.{IsRefusedAs};
ghost use Rattle.look_words.specs.Looks.{HoldsSo};

use cabinet_records::{Restored, laws_of_replays};
use catalog::Catalogue;
use disk_model::Disk;
use durable_cabinet::replay;
use gate_journal::OpenFault;
use opened_cache::{LentDisk, Loan};
use std::alloc::Global;
use std::marker::Brand;

/// What the records of a disk are restored to, or why they are no cache of the catalogue; with the disk, which is handed back.
fn seen_on<D: Disk>(
    alloc: Global,
    catalogue: &Catalogue,
    disk: D,
) -> (D, Result<Restored, OpenFault>)
    requires valid { IsValid catalogue.now }
    ensures holds { IfOk result.1 (λ r. HoldsSo (D.told disk) catalogue.now (D.state disk).seen r.opening r.kept.items r.cuts.book) }
    ensures refused { IfErr result.1 (λ fault. IsRefusedAs (D.told disk) catalogue.now (D.state disk).seen (D.faults disk) (D.faults result.0) fault) }
    ensures quiet { IsTrue (D.told disk) → ChangesBy Same (D.state disk) (D.state result.0) }
    ensures told { D.told result.0 ≡ D.told disk }
    ensures later { D.faults disk ≤ D.faults result.0 }
{
    laws_of_replays();
    match replay(alloc, catalogue, disk) {
        Ok(replayed) => {
            let (file, restored) = replayed;
            (file.into_disk(), Ok(restored))
        }
        Err(refusal) => {
            let (fault, disk) = refusal;
            (disk, Err(fault))
        }
    }
}

/// The same on the disk of a loan, which is handed back; what was seen goes into `seen`.
fn look_over<'a, D: Disk, L: Loan>(
    alloc: Global,
    catalogue: &Catalogue,
    disk: &'a mut D,
    seen: &mut Result<Restored, OpenFault>,
) -> &'a mut D
    requires valid { IsValid catalogue.now }
    requires loan { disk.ghost_name ≡ L.disk }
    ensures holds { IfOk seen.new (λ r. HoldsSo (D.told disk.entry.now) catalogue.now (D.state disk.entry.now).seen r.opening r.kept.items r.cuts.book) }
    ensures refused { IfErr seen.new (λ fault. IsRefusedAs (D.told disk.entry.now) catalogue.now (D.state disk.entry.now).seen (D.faults disk.entry.now) (D.faults result.now) fault) }
    ensures quiet { IsTrue (D.told disk.entry.now) → ChangesBy Same (D.state disk.entry.now) (D.state result.now) }
    ensures told { D.told result.now ≡ D.told disk.entry.now }
    ensures later { D.faults disk.entry.now ≤ D.faults result.now }
    ensures loan { result.ghost_name ≡ L.disk }
{
    let (lent, found) = seen_on(alloc, catalogue, LentDisk::<D, L>::new(disk));
    *seen = found;
    lent.into_disk()
}

/// What the records of a disk are restored to, or why they are no cache of the catalogue, as `Cabinet::open` refuses them. No cabinet is
/// opened and no number of an opening is spent: the disk is only read and synced, and at each moment a crash leaves what it might have left
/// before. That the numbers of openings are spent is no refusal here.
pub fn look<D: Disk>(
    alloc: Global,
    catalogue: &Catalogue,
    disk: &mut D,
) -> Result<Restored, OpenFault>
    requires { IsValid catalogue.now }
    ensures holds { IfOk result (λ r. HoldsSo (D.told disk.old) catalogue.now (D.state disk.old).seen r.opening r.kept.items r.cuts.book) }
    ensures refused { IfErr result (λ fault. IsRefusedAs (D.told disk.old) catalogue.now (D.state disk.old).seen (D.faults disk.old) (D.faults disk.new) fault) }
    ensures quiet { IsTrue (D.told disk.old) → ChangesBy Same (D.state disk.old) (D.state disk.new) }
    ensures told { D.told disk.new ≡ D.told disk.old }
    ensures later { D.faults disk.old ≤ D.faults disk.new }
{
    let mut seen = Err(OpenFault::OutOfMemory);
    let _lent = look_over::<D, Brand>(alloc, catalogue, disk, &mut seen);
    seen
}
