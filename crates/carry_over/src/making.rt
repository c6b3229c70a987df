//! How the file of the new cache begins.
ghost use Rattle.std.specs.Prelude.{◌≡◌, ◌≤◌, ◌⊎◌, IfErr, IfOk, IsTrue};
ghost use Rattle.base.specs.Causes.{Rose};
ghost use Rattle.carry_over.specs.Copied.{IsWhole};
ghost use Rattle.catalog.specs.Valid.{IsValid};
ghost use Rattle.durable_cabinet.specs.Images.{blobs_start, slots_for};
ghost use Rattle.durable_cabinet.specs.Openings.{disk_in};
ghost use Rattle.gate_journal.specs.Sound.{digest_of, slots_of};

use crate::fault::CarryFault;
use cache_file::CacheFile;
use catalog::Catalogue;
use disk_model::Disk;
use durable_cabinet::{make, replay};
use gate_journal::OpenFault;
use std::alloc::Global;

/// Why a file that was just made isn't opened.
fn fault_of(fault: OpenFault) -> CarryFault
    ensures cause { result ≡ CarryFault.NewDisk → fault ≡ OpenFault.DiskFault }
    ensures made { result ≡ CarryFault.NotMade → (fault ≡ OpenFault.DiskFault → ⊥) × (fault ≡ OpenFault.OutOfMemory → ⊥) }
    ensures ends { (result ≡ CarryFault.NotMade) ⊎ (result ≡ CarryFault.OutOfMemory) ⊎ (result ≡ CarryFault.NewDisk) }
{
    match fault {
        OpenFault::DiskFault => CarryFault::NewDisk,
        OpenFault::OutOfMemory => CarryFault::OutOfMemory,
        OpenFault::NotACache => CarryFault::NotMade,
        OpenFault::CatalogueDiffers(_, _) => CarryFault::NotMade,
        OpenFault::BadRecord(_) => CarryFault::NotMade,
        OpenFault::Spent => CarryFault::NotMade,
    }
}

/// Makes the file of a new cache in place of what a disk holds. A fault hands the disk back. A disk that is modelled gives back what was made there.
pub fn made_file<E: Disk>(
    alloc: Global,
    to: &Catalogue,
    disk: E,
) -> Result<CacheFile<E>, (CarryFault, E)>
    requires { IsValid to.now }
    ensures told { IfOk result (λ f. E.told f.disk ≡ E.told disk) }
    ensures digest { IfOk result (λ f. digest_of f.journal ≡ to.now.digest) }
    ensures slots { IfOk result (λ f. slots_of f.journal ≡ slots_for to.now) }
    ensures start { IfOk result (λ f. f.start ≡ blobs_start to.now) }
    ensures whole { IfOk result (λ f. IsWhole (E.told f.disk) f.journal (E.state f.disk)) }
    ensures later { IfOk result (λ f. E.faults disk ≤ E.faults f.disk) }
    ensures told_back { IfErr result (λ r. E.told r.1 ≡ E.told disk) }
    ensures later_back { IfErr result (λ r. E.faults disk ≤ E.faults r.1) }
    ensures made { IfErr result (λ r. r.0 ≡ CarryFault.NotMade → IsTrue (E.told disk) → ⊥) }
    ensures ends { IfErr result (λ r. (r.0 ≡ CarryFault.NotMade) ⊎ (r.0 ≡ CarryFault.OutOfMemory) ⊎ (r.0 ≡ CarryFault.NewDisk)) }
    ensures failed { IfErr result (λ r. r.0 ≡ CarryFault.NewDisk → Rose (E.faults disk) (E.faults r.1)) }
{
    let mut disk = disk;
    match make(to, &mut disk) {
        Err(_) => return Err((CarryFault::NewDisk, disk)),
        Ok(()) => {}
    }
    match replay(alloc, to, disk) {
        Err((fault, disk)) => Err((fault_of(fault), disk)),
        Ok((file, restored)) => {
            drop(restored);
            Ok(file)
        }
    }
}
