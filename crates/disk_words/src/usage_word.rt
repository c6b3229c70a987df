//! The word that tells what is kept.
ghost use Rattle.std.specs.Prelude.{◌≡◌, IfOk, IsTrue};
ghost use Rattle.catalog.specs.Valid.{IsValid};
ghost use Rattle.disk_words.specs.Ends.{TellsUsage};
ghost use Rattle.durable_cabinet.specs.Images.{IsOurs};
ghost use Rattle.opened_cache.specs.Change.{DiskChange};
ghost use Rattle.opened_cache.specs.Crash.{LastsThrough};
ghost use Rattle.sessions.specs.Outside.{OutputChange, counts};
ghost use Rattle.tile_requests.specs.Texts.{usage_text};

use arrayvec::ArrayVec;
use base::Clock;
use cabinet::Keeper;
use cache_access::Alone;
use catalog::Catalogue;
use command_status::{Status, status_of_opening};
use disk_model::Disk;
use exact_ratio::Words;
use http_wire::ByteSink;
use opened_cache::{Loan, close_cache, open_cache, write_text};
use std::alloc::{AllocError, Global};
use std::marker::Brand;
use tile_requests::{laws_of_lone_threads, usage_text};

/// The text of what is kept, which stays as it is. `AllocError` if memory runs out.
fn told_usage<C: Keeper>(alloc: Global, cabinet: &mut C) -> Result<Words, AllocError>
    requires { IsValid (C.state cabinet.old).catalogue }
    ensures text { IfOk result (λ text. text ≡ usage_text (C.state cabinet.old)) }
    ensures same { C.state cabinet.new ≡ C.state cabinet.old }
    ensures lasts { C.outlasts cabinet.old cabinet.new }
{
    laws_of_lone_threads();
    usage_text(&Alone::new(), alloc, cabinet)
}

/// Opens the cache of the disk, and writes what is kept in it. Each end comes as `TellsUsage` says.
pub fn usage<D: Disk, O: ByteSink>(
    alloc: Global,
    catalogue: Catalogue,
    clock: Clock,
    disk: &mut D,
    output: &mut O,
) -> Status
    requires valid { IsValid catalogue }
    requires ours { IsTrue (D.told disk.old) → IsOurs catalogue (D.state disk.old).seen }
    ensures tells { TellsUsage catalogue clock
        (record { told = D.told disk.old; faults = counts (D.faults disk.old) (D.faults disk.new); from = D.state disk.old; to = D.state disk.new })
        (record { writes = counts (O.faults output.old) (O.faults output.new); from = O.taken output.old; to = O.taken output.new })
        (output.new ≡ output.old) result }
    ensures lasts { LastsThrough catalogue (record { told = D.told disk.old; faults = counts (D.faults disk.old) (D.faults disk.new); from = D.state disk.old; to = D.state disk.new }) }
    ensures told { D.told disk.new ≡ D.told disk.old }
{
    usage_over::<D, O, Brand>(alloc, catalogue, clock, disk, output).1
}

/// The same on the disk of a loan, which is handed back.
fn usage_over<'a, D: Disk, O: ByteSink, L: Loan>(
    alloc: Global,
    catalogue: Catalogue,
    clock: Clock,
    disk: &'a mut D,
    output: &mut O,
) -> (&'a mut D, Status)
    requires valid { IsValid catalogue }
    requires loan { disk.ghost_name ≡ L.disk }
    requires ours { IsTrue (D.told disk.now) → IsOurs catalogue (D.state disk.now).seen }
    ensures tells { TellsUsage catalogue clock
        (record { told = D.told disk.entry.now; faults = counts (D.faults disk.entry.now) (D.faults result.0.now); from = D.state disk.entry.now; to = D.state result.0.now })
        (record { writes = counts (O.faults output.old) (O.faults output.new); from = O.taken output.old; to = O.taken output.new })
        (output.new ≡ output.old) result.1 }
    ensures lasts { LastsThrough catalogue (record { told = D.told disk.entry.now; faults = counts (D.faults disk.entry.now) (D.faults result.0.now); from = D.state disk.entry.now; to = D.state result.0.now }) }
    ensures told { D.told result.0.now ≡ D.told disk.entry.now }
    ensures loan { result.0.ghost_name ≡ L.disk }
{
    match open_cache::<D, L>(alloc, catalogue, clock, disk) {
        Ok(mut cabinet) => match told_usage(alloc, &mut cabinet) {
            Ok(text) => {
                let disk = close_cache(cabinet);
                (disk, write_text(output, ArrayVec::new(), text.bytes()))
            }
            Err(_) => (close_cache(cabinet), Status::OutOfMemory),
        },
        Err(refusal) => {
            let (fault, disk) = refusal;
            (disk, status_of_opening(fault))
        }
    }
}
