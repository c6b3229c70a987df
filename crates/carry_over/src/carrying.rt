//! How a cache is taken over by a changed catalogue.
ghost use Rattle.std.specs.List.{AllByRecursion};
ghost use Rattle.std.specs.Prelude.{◌≡◌, ◌≤◌, ◌<◌, ◌^◌, ◌⊎◌, IfErr, IfOk, IsTrue, length};
ghost use Rattle.base.specs.Causes.{Rose, RoseBy};
ghost use Rattle.cabinet.specs.Fresh.{MayBeginWith};
ghost use Rattle.carry_over.specs.Copied.{IsWhole};
ghost use Rattle.carry_over.specs.Taken.{IsCarryFault, IsCopied, IsLateFault, IsTakenFrom, IsTakenOver, opening_of, opening_with};
ghost use Rattle.catalog.specs.Valid.{IsValid};
ghost use Rattle.disk_model.specs.Content.{Same};
ghost use Rattle.disk_model.specs.Images.{ChangesBy};
ghost use Rattle.durable_cabinet.specs.Images.{blobs_start, slots_for};
ghost use Rattle.gate_journal.specs.Sound.{digest_of, slots_of};

use crate::copying::copy_all;
use crate::fault::{CarryFault, CopyFault};
use crate::making::made_file;
use crate::planning::{CarryPlan, plan};
use crate::writing::write_down;
use cabinet_records::{Restored, laws_of_replays};
use cache_file::CacheFile;
use catalog::Catalogue;
use disk_model::Disk;
use durable_cabinet::replay;
use std::alloc::Global;

/// What was taken over.
#[derive(Clone, Copy, Debug, PartialEq, Eq, Drop)]
pub struct Carried {
    /// How many metatiles the new cache keeps.
    pub kept: u64,
    /// How many truncations are in force there.
    pub cuts: u64,
    /// How many metatiles stay, but end past the room of the new catalogue's blobs.
    pub roomless: u64,
    /// How many metatiles weren't read from the old disk.
    pub unread: u64,
}

/// How a carry ended, and the two disks.
#[derive(Drop)]
pub struct CarryEnd<D: Disk, E: Disk> {
    pub end: Result<Carried, CarryFault>,
    pub old: D,
    pub new: E,
}

/// Copies what was planned into the file of the new cache, and writes it down there.
fn carry_into<D: Disk, E: Disk>(
    alloc: Global,
    to: &Catalogue,
    plan: &CarryPlan,
    old: &mut D,
    start: u64,
    new: &mut CacheFile<E>,
) -> Result<Carried, CarryFault>
    requires valid { IsValid to.now }
    requires number { plan.now.number < 2 ^ 24 }
    requires begins { MayBeginWith to.now (opening_with plan.now.number plan.now.floor plan.now.cuts.items plan.now.chosen.kept.items) }
    requires old_start { start ≤ 2 ^ 60 }
    requires digest { digest_of new.old.journal ≡ to.now.digest }
    requires slots { slots_of new.old.journal ≡ slots_for to.now }
    requires start { new.old.start ≡ blobs_start to.now }
    requires whole { IsWhole (E.told new.old.disk) new.old.journal (E.state new.old.disk) }
    ensures old_told { D.told old.new ≡ D.told old.old }
    ensures quiet { IsTrue (D.told old.old) → ChangesBy Same (D.state old.old) (D.state old.new) }
    ensures old_later { D.faults old.old ≤ D.faults old.new }
    ensures later { E.faults new.old.disk ≤ E.faults new.new.disk }
    ensures told { E.told new.new.disk ≡ E.told new.old.disk }
    ensures copied { IsTrue (D.told old.old) → IsTrue (E.told new.old.disk) → IfOk result (λ n. IsCopied to.now (opening_with plan.now.number plan.now.floor plan.now.cuts.items plan.now.chosen.kept.items) start (D.state old.old).seen (E.state new.new.disk).may_leave n.kept n.unread) }
    ensures cuts { IfOk result (λ n. n.cuts ≡ length plan.now.cuts.items) }
    ensures roomless { IfOk result (λ n. n.roomless ≡ plan.now.chosen.roomless) }
    ensures unread { IfOk result (λ n. RoseBy n.unread (D.faults old.old) (D.faults old.new)) }
    ensures failed { IfErr result (λ fault. (fault ≡ CarryFault.OutOfMemory) ⊎ ((fault ≡ CarryFault.NewDisk) × Rose (E.faults new.old.disk) (E.faults new.new.disk))) }
{
    let mut kept = Vec::new(alloc);
    let chosen = plan.chosen.kept.as_slice();
    let unread = match copy_all(alloc, to, old, start, new, chosen, &mut kept) {
        Err(CopyFault::OutOfMemory) => return Err(CarryFault::OutOfMemory),
        Err(CopyFault::DiskFault) => return Err(CarryFault::NewDisk),
        Ok(unread) => unread,
    };
    let cuts = plan.cuts.as_slice();
    match write_down(
        alloc,
        to,
        plan.number,
        plan.floor,
        cuts,
        kept.as_slice(),
        new,
    ) {
        Err(fault) => Err(fault),
        Ok(()) => Ok(Carried {
            kept: kept.len() as u64,
            cuts: cuts.len() as u64,
            roomless: plan.chosen.roomless,
            unread,
        }),
    }
}

/// Takes over what an old cache was restored to.
fn carry_restored<D: Disk, E: Disk>(
    alloc: Global,
    from: &Catalogue,
    to: &Catalogue,
    restored: &Restored,
    start: u64,
    old: D,
    new: E,
) -> CarryEnd<D, E>
    requires valid { IsValid from.now }
    requires to { IsValid to.now }
    requires opens { MayBeginWith from.now (opening_of restored.now.opening restored.now.kept.items restored.now.cuts.book) }
    requires start { start ≡ blobs_start from.now }
    ensures old_told { D.told result.old ≡ D.told old }
    ensures quiet { IsTrue (D.told old) → ChangesBy Same (D.state old) (D.state result.old) }
    ensures old_later { D.faults old ≤ D.faults result.old }
    ensures taken { IsTrue (D.told old) → IsTrue (E.told new) → IfOk result.end (λ n. IsTakenFrom from.now to.now (opening_of restored.now.opening restored.now.kept.items restored.now.cuts.book) (D.state old).seen (E.state result.new).may_leave n.kept n.cuts n.roomless n.unread) }
    ensures unread { IfOk result.end (λ n. RoseBy n.unread (D.faults old) (D.faults result.old)) }
    ensures new_told { E.told result.new ≡ E.told new }
    ensures new_later { E.faults new ≤ E.faults result.new }
    ensures cause { IfErr result.end (IsLateFault to.now restored.now.opening restored.now.cuts.book (E.told new) (E.faults new) (E.faults result.new)) }
{
    match plan(
        alloc,
        from,
        to,
        restored.opening,
        restored.kept.as_slice(),
        &restored.cuts,
    ) {
        Err(fault) => CarryEnd {
            end: Err(fault),
            old,
            new,
        },
        Ok(plan) => match made_file(alloc, to, new) {
            Err((fault, new)) => CarryEnd {
                end: Err(fault),
                old,
                new,
            },
            Ok(file) => {
                let mut old = old;
                let mut file = file;
                let end = carry_into(alloc, to, &plan, &mut old, start, &mut file);
                CarryEnd {
                    end,
                    old,
                    new: file.into_disk(),
                }
            }
        },
    }
}

/// Takes the cache of one catalogue over under another one: makes a new cache in place of what the new disk holds, which keeps each metatile that the change
/// leaves alone under its number, with its region, its moment and its saved uses, in the order of the old one's records, and each truncation in force that is of
/// the new catalogue, under its number. The old disk is only read. The new one counts only once this has ended well; what is then said of its images is said of it as it
/// is handed back, so of all that a crash leaves of it from then on until it is written to.
///
/// Left out are metatiles whose region ends past the room of the new catalogue, the ones that were used the longest ago where more are kept than it lets be
/// kept, and those that weren't read, which is only where the old disk's count of faults rose. Each fault has its cause (`specs/Taken.antt`).
pub fn carry<D: Disk, E: Disk>(
    alloc: Global,
    from: &Catalogue,
    to: &Catalogue,
    old: D,
    new: E,
) -> CarryEnd<D, E>
    requires from { IsValid from.now }
    requires to { IsValid to.now }
    ensures old_told { D.told result.old ≡ D.told old }
    ensures quiet { IsTrue (D.told old) → ChangesBy Same (D.state old) (D.state result.old) }
    ensures old_later { D.faults old ≤ D.faults result.old }
    ensures taken { IsTrue (D.told old) → IsTrue (E.told new) → IfOk result.end (λ n. IsTakenOver from.now to.now (D.state old).seen (E.state result.new).may_leave n.kept n.cuts n.roomless n.unread) }
    ensures unread { IfOk result.end (λ n. RoseBy n.unread (D.faults old) (D.faults result.old)) }
    ensures new_told { E.told result.new ≡ E.told new }
    ensures new_later { E.faults new ≤ E.faults result.new }
    ensures cause { IfErr result.end (IsCarryFault (D.told old) from.now to.now (D.state old).seen (D.faults old) (D.faults result.old) (E.told new) (E.faults new) (E.faults result.new)) }
{
    laws_of_replays();
    match replay(alloc, from, old) {
        Err((fault, old)) => CarryEnd {
            end: Err(CarryFault::Old(fault)),
            old,
            new,
        },
        Ok((file, restored)) => {
            let start = file.start;
            let old = file.into_disk();
            carry_restored(alloc, from, to, &restored, start, old, new)
        }
    }
}
