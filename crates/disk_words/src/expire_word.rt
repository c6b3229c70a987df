//! The word that drops metatiles until no quota is exceeded.
ghost use Rattle.std.specs.Prelude.{ℕ, ◌≡◌, IfSome, IsTrue, None};
ghost use Rattle.base.specs.Causes.{Rose};
ghost use Rattle.cabinet.specs.Commands.{Expires};
ghost use Rattle.cabinet.specs.declared.replies.Expired.TheVariants as expired;
ghost use Rattle.catalog.specs.Valid.{IsValid};
ghost use Rattle.disk_words.specs.Ends.{Drops, DropsAll, TellsDropped};
ghost use Rattle.durable_cabinet.specs.Images.{IsOurs};
ghost use Rattle.opened_cache.specs.Change.{DiskChange};
ghost use Rattle.opened_cache.specs.Crash.{LastsThrough};
ghost use Rattle.sessions.specs.Outside.{OutputChange, counts};

use base::Clock;
use cabinet::Keeper;
use cache_access::{Alone, Upkept, expire_until_within};
use catalog::Catalogue;
use command_status::{Status, status_of_opening};
use disk_model::Disk;
use http_wire::ByteSink;
use opened_cache::{Loan, close_cache, number_text, open_cache, write_text};
use std::alloc::Global;
use std::marker::Brand;

/// Opens the cache of the disk, drops metatiles until no quota is exceeded, and writes how many. Each end comes as `DropsAll` says.
pub fn expire<D: Disk, O: ByteSink>(
    alloc: Global,
    catalogue: Catalogue,
    clock: Clock,
    disk: &mut D,
    output: &mut O,
) -> Status
    requires valid { IsValid catalogue }
    requires ours { IsTrue (D.told disk.old) → IsOurs catalogue (D.state disk.old).seen }
    ensures drops { DropsAll catalogue clock
        (record { told = D.told disk.old; faults = counts (D.faults disk.old) (D.faults disk.new); from = D.state disk.old; to = D.state disk.new })
        (record { writes = counts (O.faults output.old) (O.faults output.new); from = O.taken output.old; to = O.taken output.new })
        (output.new ≡ output.old) result }
    ensures lasts { LastsThrough catalogue (record { told = D.told disk.old; faults = counts (D.faults disk.old) (D.faults disk.new); from = D.state disk.old; to = D.state disk.new }) }
    ensures told { D.told disk.new ≡ D.told disk.old }
{
    expire_over::<D, O, Brand>(alloc, catalogue, clock, disk, output).1
}

/// Drops metatiles until no quota is exceeded, and answers how many; `None` where the disk failed.
fn drop_all<C: Keeper>(cabinet: &mut C) -> Option<u32>
    ensures all { IfSome result (λ n. Drops n (C.state cabinet.old) (C.state cabinet.new) × Expires (C.state cabinet.new) expired.Within (C.state cabinet.new)) }
    ensures failed { result ≡ None → Rose (C.faults cabinet.old) (C.faults cabinet.new) }
    ensures dropped { result ≡ None → (n : ℕ) × Drops n (C.state cabinet.old) (C.state cabinet.new) }
    ensures lasts { C.outlasts cabinet.old cabinet.new }
{
    // each turn but the last drops a metatile that is kept
    let most = u64::from(cabinet.kept()) + 1;
    match expire_until_within(&Alone::new(), cabinet, most) {
        Upkept::Done(dropped) => Some(dropped as u32),
        Upkept::DiskFault(_) => None,
        Upkept::Stopped => unreachable!(),
    }
}

/// Tells how many were dropped.
fn told_dropped<O: ByteSink>(output: &mut O, dropped: Option<u32>) -> Status
    ensures { TellsDropped (record { writes = counts (O.faults output.old) (O.faults output.new); from = O.taken output.old; to = O.taken output.new }) (output.new ≡ output.old) dropped result }
{
    match dropped {
        Some(count) => write_text(output, number_text(b"dropped ", u64::from(count)), b"\n"),
        None => Status::DiskFault,
    }
}

/// The same on the disk of a loan, which is handed back.
fn expire_over<'a, D: Disk, O: ByteSink, L: Loan>(
    alloc: Global,
    catalogue: Catalogue,
    clock: Clock,
    disk: &'a mut D,
    output: &mut O,
) -> (&'a mut D, Status)
    requires valid { IsValid catalogue }
    requires loan { disk.ghost_name ≡ L.disk }
    requires ours { IsTrue (D.told disk.now) → IsOurs catalogue (D.state disk.now).seen }
    ensures drops { DropsAll catalogue clock
        (record { told = D.told disk.entry.now; faults = counts (D.faults disk.entry.now) (D.faults result.0.now); from = D.state disk.entry.now; to = D.state result.0.now })
        (record { writes = counts (O.faults output.old) (O.faults output.new); from = O.taken output.old; to = O.taken output.new })
        (output.new ≡ output.old) result.1 }
    ensures lasts { LastsThrough catalogue (record { told = D.told disk.entry.now; faults = counts (D.faults disk.entry.now) (D.faults result.0.now); from = D.state disk.entry.now; to = D.state result.0.now }) }
    ensures told { D.told result.0.now ≡ D.told disk.entry.now }
    ensures loan { result.0.ghost_name ≡ L.disk }
{
    match open_cache::<D, L>(alloc, catalogue, clock, disk) {
        Ok(mut cabinet) => {
            let dropped = drop_all(&mut cabinet);
            let disk = close_cache(cabinet);
            (disk, told_dropped(output, dropped))
        }
        Err(refusal) => {
            let (fault, disk) = refusal;
            (disk, status_of_opening(fault))
        }
    }
}
