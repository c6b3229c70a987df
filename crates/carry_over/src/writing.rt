//! How what is taken over is written down.
ghost use Rattle.std.specs.List.{AllByRecursion};
ghost use Rattle.std.specs.Prelude.{◌≡◌, ◌≤◌, ◌<◌, ◌^◌, ◌⊎◌, ℕ, IfErr, IsTrue, OnOk};
ghost use Rattle.base.specs.Causes.{Rose};
ghost use Rattle.cabinet.specs.Fresh.{MayBeginWith};
ghost use Rattle.carry_over.specs.Copied.{IsCopyOn, IsWhole};
ghost use Rattle.carry_over.specs.Taken.{HasTaken, opening_with};
ghost use Rattle.catalog.specs.Valid.{IsValid};
ghost use Rattle.disk_model.specs.Content.{Content};
ghost use Rattle.disk_model.specs.Images.{Every};
ghost use Rattle.durable_cabinet.specs.Images.{blobs_start, slots_for};
ghost use Rattle.gate_journal.specs.Sound.{digest_of, slots_of};

use crate::bodies::bodies_of;
use crate::fault::CarryFault;
use cabinet::Kept;
use cache_file::{CacheFile, laws_of_files};
use catalog::Catalogue;
use disk_model::Disk;
use std::alloc::Global;
use truncation_list::Cut;

/// Writes an opening down in the file of the new cache, in place of its records: its number and floor, these cuts and what is kept, whose blobs are there.
pub fn write_down<E: Disk>(
    alloc: Global,
    to: &Catalogue,
    number: u32,
    floor: u64,
    cuts: &[Cut],
    kept: &[Kept],
    file: &mut CacheFile<E>,
) -> Result<(), CarryFault>
    requires valid { IsValid to.now }
    requires number { number < 2 ^ 24 }
    requires begins { MayBeginWith to.now (opening_with number floor cuts.now kept.now) }
    requires digest { digest_of file.old.journal ≡ to.now.digest }
    requires slots { slots_of file.old.journal ≡ slots_for to.now }
    requires start { file.old.start ≡ blobs_start to.now }
    requires whole { IsWhole (E.told file.old.disk) file.old.journal (E.state file.old.disk) }
    ensures told { E.told file.new.disk ≡ E.told file.old.disk }
    ensures later { E.faults file.old.disk ≤ E.faults file.new.disk }
    ensures images { (from : ℕ) (seen : Content) → IsTrue (E.told file.old.disk) → AllByRecursion (IsCopyOn from seen file.old.start (E.state file.old.disk)) kept.now
        → OnOk result (Every (E.state file.new.disk).may_leave (HasTaken to.now (opening_with number floor cuts.now kept.now) from seen)) }
    ensures failed { IfErr result (λ fault. (fault ≡ CarryFault.OutOfMemory) ⊎ ((fault ≡ CarryFault.NewDisk) × Rose (E.faults file.old.disk) (E.faults file.new.disk))) }
{
    laws_of_files::<E>();
    let bodies = match bodies_of(alloc, to, number, floor, cuts, kept) {
        Err(_) => return Err(CarryFault::OutOfMemory),
        Ok(bodies) => bodies,
    };
    match file.replace(bodies.as_slice()) {
        Err(_) => Err(CarryFault::NewDisk),
        Ok(()) => Ok(()),
    }
}
