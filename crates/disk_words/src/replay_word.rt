//! The word that serves an input as the bytes of one connection.
ghost use Rattle.std.specs.Prelude.{ℕ, ◌≡◌, ◌≤◌, IsTrue};
ghost use Rattle.cache_core.specs.Lasting.{Lasting};
ghost use Rattle.catalog.specs.Valid.{IsValid};
ghost use Rattle.disk_words.specs.Runs.{RunsSession, ServesAndSaves};
ghost use Rattle.durable_cabinet.specs.Images.{IsOurs};
ghost use Rattle.opened_cache.specs.Change.{DiskChange};
ghost use Rattle.opened_cache.specs.Crash.{LastsThrough};
ghost use Rattle.opened_cache.specs.Passing.{PassesDisk};
ghost use Rattle.sessions.specs.Outside.{InputChange, Outside, counts};
ghost use Rattle.tile_service.specs.Passing.{LeadsThrough};
ghost use Rattle.tile_service.specs.Session.{IsAtRest};

use base::Clock;
use cabinet::Keeper;
use cache_core::laws_of_lasting;
use catalog::Catalogue;
use command_status::{Status, status_of_opening, status_of_session};
use disk_model::Disk;
use exact_ratio::Words;
use http_wire::{ByteSink, ByteSource};
use opened_cache::{LentCabinet, Loan, close_cache, leaves_now, open_cache, save_all};
use sessions::SessionEnd;
use source_render::Source;
use std::alloc::Global;
use std::marker::Brand;
use tile_requests::Tables;
use tile_service::{Counter, replay_streams};

/// Opens the cache of the disk, serves the bytes of the input as those of one connection with it, writes the responses, and saves the
/// uses of what is kept. A fault of the disk ends it at the opening alone. Each end comes as `RunsSession` says. After each message there
/// is a moment from which on a crash leaves what answers for each truncation that was done by then (`PassesDisk`).
pub fn replay<D: Disk, S: Source, I: ByteSource, O: ByteSink>(
    alloc: Global,
    catalogue: Catalogue,
    capabilities: Words,
    input: &mut I,
    clock: Clock,
    disk: &mut D,
    source: &mut S,
    output: &mut O,
) -> Status
    requires valid { IsValid catalogue }
    requires ours { IsTrue (D.told disk.old) → IsOurs catalogue (D.state disk.old).seen }
    ensures serves { RunsSession (PassesDisk D D.state (D.told disk.old) (D.state disk.old) (D.state disk.new)) catalogue clock capabilities
        (record { reads = counts (I.faults input.old) (I.faults input.new); from = I.left input.old; to = I.left input.new })
        (record { told = S.told source.old; renders = counts (S.faults source.old) (S.faults source.new); disk = counts (D.faults disk.old) (D.faults disk.new); writes = counts (O.faults output.old) (O.faults output.new); from = O.taken output.old; to = O.taken output.new })
        (record { told = D.told disk.old; faults = counts (D.faults disk.old) (D.faults disk.new); from = D.state disk.old; to = D.state disk.new })
        (input.new ≡ input.old) ((output.new ≡ output.old) × (source.new ≡ source.old)) result }
    ensures lasts { LastsThrough catalogue (record { told = D.told disk.old; faults = counts (D.faults disk.old) (D.faults disk.new); from = D.state disk.old; to = D.state disk.new }) }
    ensures told { D.told disk.new ≡ D.told disk.old }
{
    match Tables::new(alloc) {
        Ok(tables) => {
            replay_over::<D, S, I, O, Brand>(
                alloc,
                catalogue,
                capabilities,
                tables,
                input,
                clock,
                disk,
                source,
                output,
            )
            .1
        }
        Err(_) => Status::OutOfMemory,
    }
}

/// Serves the bytes of the input as those of one connection, and then saves the uses of what is kept.
fn serve_and_save<C: Keeper, S: Source, I: ByteSource, O: ByteSink>(
    alloc: Global,
    counter: &mut Counter<C>,
    input: &mut I,
    source: &mut S,
    output: &mut O,
) -> SessionEnd
    requires valid { IsValid (C.state counter.old.cabinet).catalogue }
    requires rest { IsAtRest (C.state counter.old.cabinet) }
    ensures serves { (before : ℕ) → before ≤ C.faults counter.old.cabinet → ServesAndSaves (LeadsThrough C C.state C.outlasts counter.old.cabinet counter.new.cabinet) counter.old.capabilities
        (record { reads = counts (I.faults input.old) (I.faults input.new); from = I.left input.old; to = I.left input.new })
        (record { told = S.told source.old; renders = counts (S.faults source.old) (S.faults source.new); disk = counts before (C.faults counter.new.cabinet); writes = counts (O.faults output.old) (O.faults output.new); from = O.taken output.old; to = O.taken output.new })
        (C.state counter.old.cabinet) (C.state counter.new.cabinet) result }
    ensures lasts { Lasting (C.outlasts counter.old.cabinet counter.new.cabinet) (C.state counter.old.cabinet) (C.state counter.new.cabinet) }
{
    laws_of_lasting::<C>();
    let end = replay_streams(alloc, counter, source, input, output);
    save_all(&mut counter.cabinet);
    end
}

/// The same on the disk of a loan, which is handed back.
fn replay_over<'a, D: Disk, S: Source, I: ByteSource, O: ByteSink, L: Loan>(
    alloc: Global,
    catalogue: Catalogue,
    capabilities: Words,
    tables: Tables,
    input: &mut I,
    clock: Clock,
    disk: &'a mut D,
    source: &mut S,
    output: &mut O,
) -> (&'a mut D, Status)
    requires valid { IsValid catalogue }
    requires loan { disk.ghost_name ≡ L.disk }
    requires ours { IsTrue (D.told disk.now) → IsOurs catalogue (D.state disk.now).seen }
    ensures serves { RunsSession (PassesDisk D D.state (D.told disk.entry.now) (D.state disk.entry.now) (D.state result.0.now)) catalogue clock capabilities
        (record { reads = counts (I.faults input.old) (I.faults input.new); from = I.left input.old; to = I.left input.new })
        (record { told = S.told source.old; renders = counts (S.faults source.old) (S.faults source.new); disk = counts (D.faults disk.entry.now) (D.faults result.0.now); writes = counts (O.faults output.old) (O.faults output.new); from = O.taken output.old; to = O.taken output.new })
        (record { told = D.told disk.entry.now; faults = counts (D.faults disk.entry.now) (D.faults result.0.now); from = D.state disk.entry.now; to = D.state result.0.now })
        (input.new ≡ input.old) ((output.new ≡ output.old) × (source.new ≡ source.old)) result.1 }
    ensures lasts { LastsThrough catalogue (record { told = D.told disk.entry.now; faults = counts (D.faults disk.entry.now) (D.faults result.0.now); from = D.state disk.entry.now; to = D.state result.0.now }) }
    ensures told { D.told result.0.now ≡ D.told disk.entry.now }
    ensures loan { result.0.ghost_name ≡ L.disk }
{
    match open_cache::<D, L>(alloc, catalogue, clock, disk) {
        Ok(cabinet) => {
            leaves_now(&cabinet);
            let mut counter = Counter {
                cabinet: LentCabinet { cabinet },
                tables,
                capabilities,
            };
            let end = serve_and_save(alloc, &mut counter, input, source, output);
            let Counter {
                cabinet,
                tables,
                capabilities,
            } = counter;
            drop(tables);
            drop(capabilities);
            (close_cache(cabinet.cabinet), status_of_session(end))
        }
        Err(refusal) => {
            drop(tables);
            drop(capabilities);
            let (fault, disk) = refusal;
            (disk, status_of_opening(fault))
        }
    }
}
