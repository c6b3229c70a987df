//! The word `check`: what a start would refuse, told before it.
ghost use Rattle.std.specs.Prelude.{◌≡◌, ◌↔◌, ◌≤◌, ◌<◌, ◌+◌, ◌^◌, IsTrue, false, true, length, IfSome};
ghost use Rattle.std.specs.Option.{option_map_or};
ghost use Rattle.cabinet_records.specs.Replay.{opening_number};
ghost use Rattle.catalog.specs.Valid.{IsValid};
ghost use Rattle.look_words.specs.Checks.{CheckChange, CheckTells, Checks, IsComplete, TellsRestored};
ghost use Rattle.look_words.specs.Looks.{IsUnchanged};
ghost use Rattle.look_words.specs.Words.{is_check};
ghost use Rattle.opened_cache.specs.Change.{DiskChange};
ghost use Rattle.sessions.specs.Outside.{InputChange, OutputChange, counts};

use crate::check_text::{cache_line, files_lines};
use crate::looking::look;
use crate::words::is_check;
use cabinet_records::Restored;
use catalog::Catalogue;
use command_setup::{both_read, status_of_refusal};
use command_status::{Status, status_of_opening};
use disk_model::Disk;
use exact_ratio::Words;
use gate_journal::OpenFault;
use http_wire::{ByteSink, ByteSource};
use opened_cache::write_text;
use std::alloc::Global;

/// The numbers of openings end below this.
const OPENINGS: u32 = 1 << 24;

/// Whether no number is left for one more opening.
fn are_openings_spent(opening: Option<u32>) -> bool
    ensures left { result ≡ false → option_map_or (λ e. e) opening 0 + 1 < 2 ^ 24 }
    ensures spent { result ≡ true → 2 ^ 24 ≤ option_map_or (λ e. e) opening 0 + 1 }
{
    match opening {
        Some(number) => number >= OPENINGS - 1,
        None => false,
    }
}

/// Writes what was looked at, or tells that the numbers of openings are spent.
fn tell<O: ByteSink>(
    catalogue: &Catalogue,
    document: &Words,
    restored: &Restored,
    output: &mut O,
) -> Status
    requires valid { IsValid catalogue.now }
    requires few { length restored.now.kept.items ≤ catalogue.now.kept_limit }
    ensures { TellsRestored catalogue.now document.now restored.now.opening restored.now.kept.items restored.now.cuts.book
        (record { writes = counts (O.faults output.old) (O.faults output.new); from = O.taken output.old; to = O.taken output.new }) (output.new ≡ output.old) result }
{
    if are_openings_spent(restored.opening) {
        return Status::Cache(OpenFault::Spent);
    }
    let files = files_lines(catalogue, document);
    let cache = cache_line(restored);
    write_text(output, files, cache.as_slice())
}

/// Looks at the disk, and tells what was looked at.
fn check_disk<D: Disk, O: ByteSink>(
    alloc: Global,
    catalogue: &Catalogue,
    document: &Words,
    output: &mut O,
    disk: &mut D,
) -> Status
    requires { IsValid catalogue.now }
    ensures checks { Checks catalogue.now document.now
        (record { told = D.told disk.old; faults = counts (D.faults disk.old) (D.faults disk.new); from = D.state disk.old; to = D.state disk.new })
        (record { writes = counts (O.faults output.old) (O.faults output.new); from = O.taken output.old; to = O.taken output.new })
        (output.new ≡ output.old) result }
    ensures unchanged { IsUnchanged (record { told = D.told disk.old; faults = counts (D.faults disk.old) (D.faults disk.new); from = D.state disk.old; to = D.state disk.new }) }
    ensures told { D.told disk.new ≡ D.told disk.old }
{
    match look(alloc, catalogue, disk) {
        Ok(restored) => tell(catalogue, document, &restored, output),
        Err(fault) => status_of_opening(fault),
    }
}

/// Reads both files, and looks at the disk.
fn check<D: Disk, I: ByteSource, O: ByteSink>(
    alloc: Global,
    catalogue: &mut I,
    capabilities: &mut I,
    output: &mut O,
    disk: &mut D,
) -> Status
    ensures never { result ≡ Status.Usage → ⊥ }
    ensures tells { CheckTells true
        (record {
          catalogue = record { reads = counts (I.faults catalogue.old) (I.faults catalogue.new); from = I.left catalogue.old; to = I.left catalogue.new };
          capabilities = record { reads = counts (I.faults capabilities.old) (I.faults capabilities.new); from = I.left capabilities.old; to = I.left capabilities.new };
          disk = record { told = D.told disk.old; faults = counts (D.faults disk.old) (D.faults disk.new); from = D.state disk.old; to = D.state disk.new };
          output = record { writes = counts (O.faults output.old) (O.faults output.new); from = O.taken output.old; to = O.taken output.new };
          catalogue_stays = (catalogue.new ≡ catalogue.old);
          capabilities_stay = (capabilities.new ≡ capabilities.old);
          disk_stays = (disk.new ≡ disk.old);
          output_stays = (output.new ≡ output.old);
        }) result }
    ensures unchanged { IsUnchanged (record { told = D.told disk.old; faults = counts (D.faults disk.old) (D.faults disk.new); from = D.state disk.old; to = D.state disk.new }) }
    ensures told { D.told disk.new ≡ D.told disk.old }
{
    match both_read(alloc, catalogue, capabilities) {
        Ok(both) => {
            let (read, document) = both;
            check_disk(alloc, &read, &document, output, disk)
        }
        Err(refusal) => status_of_refusal(refusal),
    }
}

/// Looks at the files, where the words are `check` alone.
fn check_asked<D: Disk, I: ByteSource, O: ByteSink>(
    alloc: Global,
    words: &[Words],
    catalogue: &mut I,
    capabilities: &mut I,
    output: &mut O,
    disk: &mut D,
) -> Status
    ensures usage { (result ≡ Status.Usage) ↔ (is_check words.now ≡ false) }
    ensures tells { CheckTells (is_check words.now)
        (record {
          catalogue = record { reads = counts (I.faults catalogue.old) (I.faults catalogue.new); from = I.left catalogue.old; to = I.left catalogue.new };
          capabilities = record { reads = counts (I.faults capabilities.old) (I.faults capabilities.new); from = I.left capabilities.old; to = I.left capabilities.new };
          disk = record { told = D.told disk.old; faults = counts (D.faults disk.old) (D.faults disk.new); from = D.state disk.old; to = D.state disk.new };
          output = record { writes = counts (O.faults output.old) (O.faults output.new); from = O.taken output.old; to = O.taken output.new };
          catalogue_stays = (catalogue.new ≡ catalogue.old);
          capabilities_stay = (capabilities.new ≡ capabilities.old);
          disk_stays = (disk.new ≡ disk.old);
          output_stays = (output.new ≡ output.old);
        }) result }
    ensures unchanged { IsUnchanged (record { told = D.told disk.old; faults = counts (D.faults disk.old) (D.faults disk.new); from = D.state disk.old; to = D.state disk.new }) }
    ensures told { D.told disk.new ≡ D.told disk.old }
{
    if is_check(words) {
        check(alloc, catalogue, capabilities, output, disk)
    } else {
        Status::Usage
    }
}

/// Reads the catalogue and the capabilities document, replays the records of the disk without opening the cache, and writes a line for each of
/// the three. It ends as a start would that is refused, and with `Done` where a start would open the cache. Nothing is changed: no number of an
/// opening is spent, and at each moment a crash leaves of the disk what it might have left before.
///
/// `Usage` exactly where the words aren't `check` alone, and nothing is then read or written; each other end comes as `CheckTells` says. Where the files
/// are modelled, a start would take them and nothing fails, it is `Done`, unless memory runs out.
pub fn run_check<D: Disk, I: ByteSource, O: ByteSink>(
    alloc: Global,
    words: &[Words],
    catalogue: &mut I,
    capabilities: &mut I,
    output: &mut O,
    disk: &mut D,
) -> Status
    ensures usage { (result ≡ Status.Usage) ↔ (is_check words.now ≡ false) }
    ensures tells { CheckTells (is_check words.now)
        (record {
          catalogue = record { reads = counts (I.faults catalogue.old) (I.faults catalogue.new); from = I.left catalogue.old; to = I.left catalogue.new };
          capabilities = record { reads = counts (I.faults capabilities.old) (I.faults capabilities.new); from = I.left capabilities.old; to = I.left capabilities.new };
          disk = record { told = D.told disk.old; faults = counts (D.faults disk.old) (D.faults disk.new); from = D.state disk.old; to = D.state disk.new };
          output = record { writes = counts (O.faults output.old) (O.faults output.new); from = O.taken output.old; to = O.taken output.new };
          catalogue_stays = (catalogue.new ≡ catalogue.old);
          capabilities_stay = (capabilities.new ≡ capabilities.old);
          disk_stays = (disk.new ≡ disk.old);
          output_stays = (output.new ≡ output.old);
        }) result }
    ensures complete { IsComplete (is_check words.now)
        (record {
          catalogue = record { reads = counts (I.faults catalogue.old) (I.faults catalogue.new); from = I.left catalogue.old; to = I.left catalogue.new };
          capabilities = record { reads = counts (I.faults capabilities.old) (I.faults capabilities.new); from = I.left capabilities.old; to = I.left capabilities.new };
          disk = record { told = D.told disk.old; faults = counts (D.faults disk.old) (D.faults disk.new); from = D.state disk.old; to = D.state disk.new };
          output = record { writes = counts (O.faults output.old) (O.faults output.new); from = O.taken output.old; to = O.taken output.new };
          catalogue_stays = (catalogue.new ≡ catalogue.old);
          capabilities_stay = (capabilities.new ≡ capabilities.old);
          disk_stays = (disk.new ≡ disk.old);
          output_stays = (output.new ≡ output.old);
        }) result }
    ensures unchanged { IsUnchanged (record { told = D.told disk.old; faults = counts (D.faults disk.old) (D.faults disk.new); from = D.state disk.old; to = D.state disk.new }) }
    ensures told { D.told disk.new ≡ D.told disk.old }
{
    check_asked(alloc, words, catalogue, capabilities, output, disk)
}
