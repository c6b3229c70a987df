//! The word that makes one truncation.
ghost use Rattle.std.specs.Prelude.{◌≡◌, ◌≤◌, ◌++◌, IsTrue, codes, decimal};
ghost use Rattle.arrayvec.specs.ArrayVec.{array_vec_len};
ghost use Rattle.catalog.specs.Valid.{IsValid};
ghost use Rattle.disk_words.specs.Ends.{CutsOnce, TellsCut, Truncates};
ghost use Rattle.durable_cabinet.specs.Images.{IsOurs};
ghost use Rattle.opened_cache.specs.Change.{DiskChange};
ghost use Rattle.opened_cache.specs.Crash.{LastsThrough};
ghost use Rattle.served_covers.specs.OfCatalogue.{IsCoverOf};
ghost use Rattle.sessions.specs.Outside.{InputChange, OutputChange, counts};

use crate::cover_input::cover_in;
use base::Clock;
use cabinet::{CutReply, Keeper};
use catalog::Catalogue;
use command_status::{Status, status_of_opening};
use disk_model::Disk;
use gate_journal::OpenFault;
use http_wire::{ByteSink, ByteSource};
use opened_cache::{Loan, close_cache, number_text, open_cache, write_text};
use std::alloc::{AllocError, Global};
use std::marker::Brand;
use truncation_list::Cover;

/// Reads the cover of the input, opens the cache of the disk, makes one cut of the cover, and writes its number. Each end comes as
/// `Truncates` says.
pub fn truncate<D: Disk, I: ByteSource, O: ByteSink>(
    alloc: Global,
    catalogue: Catalogue,
    input: &mut I,
    clock: Clock,
    disk: &mut D,
    output: &mut O,
) -> Status
    requires valid { IsValid catalogue }
    requires ours { IsTrue (D.told disk.old) → IsOurs catalogue (D.state disk.old).seen }
    ensures truncates { Truncates catalogue clock
        (record { reads = counts (I.faults input.old) (I.faults input.new); from = I.left input.old; to = I.left input.new })
        (record { told = D.told disk.old; faults = counts (D.faults disk.old) (D.faults disk.new); from = D.state disk.old; to = D.state disk.new })
        (record { writes = counts (O.faults output.old) (O.faults output.new); from = O.taken output.old; to = O.taken output.new })
        (disk.new ≡ disk.old) (output.new ≡ output.old) result }
    ensures lasts { LastsThrough catalogue (record { told = D.told disk.old; faults = counts (D.faults disk.old) (D.faults disk.new); from = D.state disk.old; to = D.state disk.new }) }
    ensures told { D.told disk.new ≡ D.told disk.old }
{
    match cover_in(alloc, &catalogue, input) {
        Ok(cover) => cut_once(alloc, catalogue, &cover, clock, disk, output),
        Err(end) => end,
    }
}

/// Opens the cache of the disk, makes one cut of a cover, and writes its number.
fn cut_once<D: Disk, O: ByteSink>(
    alloc: Global,
    catalogue: Catalogue,
    cover: &Cover,
    clock: Clock,
    disk: &mut D,
    output: &mut O,
) -> Status
    requires valid { IsValid catalogue }
    requires cover { IsCoverOf catalogue cover.now }
    requires ours { IsTrue (D.told disk.old) → IsOurs catalogue (D.state disk.old).seen }
    ensures cuts { CutsOnce catalogue clock cover.now
        (record { told = D.told disk.old; faults = counts (D.faults disk.old) (D.faults disk.new); from = D.state disk.old; to = D.state disk.new })
        (record { writes = counts (O.faults output.old) (O.faults output.new); from = O.taken output.old; to = O.taken output.new })
        (output.new ≡ output.old) result }
    ensures lasts { LastsThrough catalogue (record { told = D.told disk.old; faults = counts (D.faults disk.old) (D.faults disk.new); from = D.state disk.old; to = D.state disk.new }) }
    ensures told { D.told disk.new ≡ D.told disk.old }
{
    truncate_over::<D, O, Brand>(alloc, catalogue, cover, clock, disk, output).1
}

/// Tells the reply of the one cut.
fn told_cut<O: ByteSink>(output: &mut O, reply: Result<CutReply, AllocError>) -> Status
    ensures { TellsCut (record { writes = counts (O.faults output.old) (O.faults output.new); from = O.taken output.old; to = O.taken output.new }) (output.new ≡ output.old) reply result }
{
    match reply {
        Ok(CutReply::Done(number)) => write_text(output, number_text(b"cut ", number), b"\n"),
        Ok(CutReply::Full) => Status::CutsFull,
        Ok(CutReply::DiskFault(_, _)) => Status::DiskFault,
        Ok(CutReply::Spent) => Status::Cache(OpenFault::Spent),
        Err(_) => Status::OutOfMemory,
    }
}

/// Cuts on the disk of a loan, which is handed back.
fn truncate_over<'a, D: Disk, O: ByteSink, L: Loan>(
    alloc: Global,
    catalogue: Catalogue,
    cover: &Cover,
    clock: Clock,
    disk: &'a mut D,
    output: &mut O,
) -> (&'a mut D, Status)
    requires valid { IsValid catalogue }
    requires cover { IsCoverOf catalogue cover.now }
    requires loan { disk.ghost_name ≡ L.disk }
    requires ours { IsTrue (D.told disk.now) → IsOurs catalogue (D.state disk.now).seen }
    ensures cuts { CutsOnce catalogue clock cover.now
        (record { told = D.told disk.entry.now; faults = counts (D.faults disk.entry.now) (D.faults result.0.now); from = D.state disk.entry.now; to = D.state result.0.now })
        (record { writes = counts (O.faults output.old) (O.faults output.new); from = O.taken output.old; to = O.taken output.new })
        (output.new ≡ output.old) result.1 }
    ensures lasts { LastsThrough catalogue (record { told = D.told disk.entry.now; faults = counts (D.faults disk.entry.now) (D.faults result.0.now); from = D.state disk.entry.now; to = D.state result.0.now }) }
    ensures told { D.told result.0.now ≡ D.told disk.entry.now }
    ensures loan { result.0.ghost_name ≡ L.disk }
{
    match open_cache::<D, L>(alloc, catalogue, clock, disk) {
        Ok(mut cabinet) => {
            let reply = Keeper::cut(&mut cabinet, alloc, cover);
            let disk = close_cache(cabinet);
            (disk, told_cut(output, reply))
        }
        Err(refusal) => {
            let (fault, disk) = refusal;
            (disk, status_of_opening(fault))
        }
    }
}
