//! The word `list`: what is kept, a line a metatile.
ghost use Rattle.std.specs.List.{AllByRecursion};
ghost use Rattle.std.specs.Prelude.{◌≡◌, ◌↔◌, IsTrue, None, Some};
ghost use Rattle.catalog.specs.LookUp.{layer_named};
ghost use Rattle.catalog.specs.Valid.{IsValid};
ghost use Rattle.look_words.specs.Lists.{ListChange, ListTells, ListTellsOf, Lists, ListsLayer, ListsRead};
ghost use Rattle.look_words.specs.Listings.{status_of_listing};
ghost use Rattle.look_words.specs.Looks.{IsUnchanged};
ghost use Rattle.look_words.specs.Words.{listed_in, name_in};
ghost use Rattle.opened_cache.specs.Change.{DiskChange};
ghost use Rattle.sessions.specs.Outside.{InputChange, OutputChange, counts};

use crate::listing::{ListingEnd, send_lines};
use crate::looking::look;
use crate::words::{Listed, listed_in, name_in};
use catalog::Catalogue;
use command_setup::{read_configuration, status_of_refusal};
use command_status::{Status, status_of_opening};
use disk_model::Disk;
use exact_ratio::Words;
use http_wire::{ByteSink, ByteSource};
use job_forms::{JobFault, JobField};
use std::alloc::Global;

/// The status of a list whose lines were written so.
fn status_of_listing(end: ListingEnd) -> Status
    ensures { result ≡ status_of_listing end }
{
    match end {
        ListingEnd::Done => Status::Done,
        ListingEnd::WriteFault => Status::WriteFault,
        ListingEnd::OutOfMemory => Status::OutOfMemory,
    }
}

/// Lists what the disk holds of a layer, or of all.
fn list_kept<D: Disk, O: ByteSink>(
    alloc: Global,
    catalogue: &Catalogue,
    layer: Option<u32>,
    output: &mut O,
    disk: &mut D,
) -> Status
    requires { IsValid catalogue.now }
    ensures lists { Lists catalogue.now layer
        (record { told = D.told disk.old; faults = counts (D.faults disk.old) (D.faults disk.new); from = D.state disk.old; to = D.state disk.new })
        (record { writes = counts (O.faults output.old) (O.faults output.new); from = O.taken output.old; to = O.taken output.new })
        (output.new ≡ output.old) result }
    ensures unchanged { IsUnchanged (record { told = D.told disk.old; faults = counts (D.faults disk.old) (D.faults disk.new); from = D.state disk.old; to = D.state disk.new }) }
    ensures told { D.told disk.new ≡ D.told disk.old }
{
    match look(alloc, catalogue, disk) {
        Ok(restored) => status_of_listing(send_lines(
            alloc,
            catalogue,
            layer,
            restored.kept.as_slice(),
            output,
        )),
        Err(fault) => status_of_opening(fault),
    }
}

/// Lists what the disk holds of the layer of this name.
fn list_layer<D: Disk, O: ByteSink>(
    alloc: Global,
    catalogue: &Catalogue,
    name: &[u8],
    output: &mut O,
    disk: &mut D,
) -> Status
    requires { IsValid catalogue.now }
    ensures lists { ListsLayer catalogue.now (layer_named catalogue.now name.now)
        (record { told = D.told disk.old; faults = counts (D.faults disk.old) (D.faults disk.new); from = D.state disk.old; to = D.state disk.new })
        (record { writes = counts (O.faults output.old) (O.faults output.new); from = O.taken output.old; to = O.taken output.new })
        (disk.new ≡ disk.old) (output.new ≡ output.old) result }
    ensures unchanged { IsUnchanged (record { told = D.told disk.old; faults = counts (D.faults disk.old) (D.faults disk.new); from = D.state disk.old; to = D.state disk.new }) }
    ensures told { D.told disk.new ≡ D.told disk.old }
{
    match catalogue.layer_named(name) {
        Some(layer) => list_kept(alloc, catalogue, Some(layer), output, disk),
        None => Status::Form(JobFault::Bad(JobField::Layer)),
    }
}

/// Lists what the words ask for, of a catalogue that was read.
fn list_read<D: Disk, O: ByteSink>(
    alloc: Global,
    catalogue: &Catalogue,
    listed: Listed,
    name: &[u8],
    output: &mut O,
    disk: &mut D,
) -> Status
    requires { IsValid catalogue.now }
    ensures lists { ListsRead catalogue.now listed name.now
        (record { told = D.told disk.old; faults = counts (D.faults disk.old) (D.faults disk.new); from = D.state disk.old; to = D.state disk.new })
        (record { writes = counts (O.faults output.old) (O.faults output.new); from = O.taken output.old; to = O.taken output.new })
        (disk.new ≡ disk.old) (output.new ≡ output.old) result }
    ensures unchanged { IsUnchanged (record { told = D.told disk.old; faults = counts (D.faults disk.old) (D.faults disk.new); from = D.state disk.old; to = D.state disk.new }) }
    ensures told { D.told disk.new ≡ D.told disk.old }
{
    match listed {
        Listed::All => list_kept(alloc, catalogue, None, output, disk),
        Listed::OfLayer => list_layer(alloc, catalogue, name, output, disk),
        Listed::Nothing => Status::Usage,
    }
}

/// Reads the catalogue, and lists what is asked for.
fn list<D: Disk, I: ByteSource, O: ByteSink>(
    alloc: Global,
    listed: Listed,
    name: &[u8],
    catalogue: &mut I,
    output: &mut O,
    disk: &mut D,
) -> Status
    ensures tells { ListTellsOf listed name.now
        (record {
          catalogue = record { reads = counts (I.faults catalogue.old) (I.faults catalogue.new); from = I.left catalogue.old; to = I.left catalogue.new };
          disk = record { told = D.told disk.old; faults = counts (D.faults disk.old) (D.faults disk.new); from = D.state disk.old; to = D.state disk.new };
          output = record { writes = counts (O.faults output.old) (O.faults output.new); from = O.taken output.old; to = O.taken output.new };
          catalogue_stays = (catalogue.new ≡ catalogue.old);
          disk_stays = (disk.new ≡ disk.old);
          output_stays = (output.new ≡ output.old);
        }) result }
    ensures unchanged { IsUnchanged (record { told = D.told disk.old; faults = counts (D.faults disk.old) (D.faults disk.new); from = D.state disk.old; to = D.state disk.new }) }
    ensures told { D.told disk.new ≡ D.told disk.old }
{
    match read_configuration(alloc, catalogue) {
        Ok(read) => list_read(alloc, &read, listed, name, output, disk),
        Err(refusal) => status_of_refusal(refusal),
    }
}

/// Does what was asked for; where that is no list, nothing is touched.
fn list_asked<D: Disk, I: ByteSource, O: ByteSink>(
    alloc: Global,
    listed: Listed,
    name: &[u8],
    catalogue: &mut I,
    output: &mut O,
    disk: &mut D,
) -> Status
    ensures tells { ListTells listed name.now
        (record {
          catalogue = record { reads = counts (I.faults catalogue.old) (I.faults catalogue.new); from = I.left catalogue.old; to = I.left catalogue.new };
          disk = record { told = D.told disk.old; faults = counts (D.faults disk.old) (D.faults disk.new); from = D.state disk.old; to = D.state disk.new };
          output = record { writes = counts (O.faults output.old) (O.faults output.new); from = O.taken output.old; to = O.taken output.new };
          catalogue_stays = (catalogue.new ≡ catalogue.old);
          disk_stays = (disk.new ≡ disk.old);
          output_stays = (output.new ≡ output.old);
        }) result }
    ensures unchanged { IsUnchanged (record { told = D.told disk.old; faults = counts (D.faults disk.old) (D.faults disk.new); from = D.state disk.old; to = D.state disk.new }) }
    ensures told { D.told disk.new ≡ D.told disk.old }
{
    match listed {
        Listed::All => list(alloc, Listed::All, name, catalogue, output, disk),
        Listed::OfLayer => list(alloc, Listed::OfLayer, name, catalogue, output, disk),
        Listed::Nothing => Status::Usage,
    }
}

/// Reads the catalogue, replays the records of the disk without opening the cache, and writes a line for each metatile that is kept: all, or with
/// the name of a layer behind `list` those of that layer. The lines are written one at a time, and take no memory beyond what the records are
/// restored to. Nothing is changed: no number of an opening is spent, and at each moment a crash leaves of the disk what it might have left before.
///
/// `Usage` exactly where the words aren't `list`, alone or with one word behind it, and nothing is then read or written; `Form` where no layer has
/// the name, and then only the catalogue is read; each other end comes as `ListTells` says.
pub fn run_list<D: Disk, I: ByteSource, O: ByteSink>(
    alloc: Global,
    words: &[Words],
    catalogue: &mut I,
    output: &mut O,
    disk: &mut D,
) -> Status
    ensures tells { ListTells (listed_in words.now) (name_in words.now)
        (record {
          catalogue = record { reads = counts (I.faults catalogue.old) (I.faults catalogue.new); from = I.left catalogue.old; to = I.left catalogue.new };
          disk = record { told = D.told disk.old; faults = counts (D.faults disk.old) (D.faults disk.new); from = D.state disk.old; to = D.state disk.new };
          output = record { writes = counts (O.faults output.old) (O.faults output.new); from = O.taken output.old; to = O.taken output.new };
          catalogue_stays = (catalogue.new ≡ catalogue.old);
          disk_stays = (disk.new ≡ disk.old);
          output_stays = (output.new ≡ output.old);
        }) result }
    ensures unchanged { IsUnchanged (record { told = D.told disk.old; faults = counts (D.faults disk.old) (D.faults disk.new); from = D.state disk.old; to = D.state disk.new }) }
    ensures told { D.told disk.new ≡ D.told disk.old }
{
    list_asked(
        alloc,
        listed_in(words),
        name_in(words),
        catalogue,
        output,
        disk,
    )
}
