//! How a tile is read out of the blob of its metatile on the disk.
ghost use Rattle.std.specs.Prelude.{◌≡◌, ◌≤◌, IfOk, IfSome, None, Some};
ghost use Rattle.base.specs.Causes.{Rose};
ghost use Rattle.cabinet.specs.History.{kept_of};
ghost use Rattle.cabinet.specs.State.{now};
ghost use Rattle.catalog.specs.LookUp.{IsTile};
ghost use Rattle.durable_cabinet.specs.Backing.{Rests};
ghost use Rattle.durable_cabinet.specs.Filed.{IsFiled};
ghost use Rattle.durable_cabinet.specs.Tiles.{IsTilePartOf};
ghost use Rattle.raster_field.specs.Blocks.{block_of};

use cabinet::{Core, Kept, tile_span};
use cache_file::CacheFile;
use disk_model::Disk;
use matrix_geometry::Address;
use std::alloc::{AllocError, Global};

/// Reads a tile's part of what is kept of its metatile; `None` only where the disk's count of faults rose. The memory for it is taken
/// first: `AllocError` where it runs out. The disk is only read.
pub(crate) fn read_part<D: Disk>(
    alloc: Global,
    core: &Core,
    file: &mut CacheFile<D>,
    address: &Address,
    kept: Kept,
) -> Result<Option<Vec<u8>>, AllocError>
    requires filed { IsFiled core.now.state (D.told file.old.disk) file.old.start file.old.journal (D.state file.old.disk) }
    requires tile { IsTile core.now.state.catalogue address.now }
    requires kept { kept_of (block_of core.now.state.catalogue address.now) (now core.now.state) ≡ Some kept }
    ensures told { D.told file.new.disk ≡ D.told file.old.disk }
    ensures filed { IsFiled core.now.state (D.told file.new.disk) file.new.start file.new.journal (D.state file.new.disk) }
    ensures journal { file.new.journal ≡ file.old.journal }
    ensures rests { Rests (D.told file.old.disk) core.now.state file.old.journal (D.state file.old.disk) (D.state file.new.disk) }
    ensures part { IfOk result (λ text. IfSome text (λ bytes. IsTilePartOf (D.told file.old.disk) core.now.state.catalogue (D.state file.old.disk).seen address.now kept bytes.items)) }
    ensures failed { IfOk result (λ text. text ≡ None → Rose (D.faults file.old.disk) (D.faults file.new.disk)) }
    ensures later { D.faults file.old.disk ≤ D.faults file.new.disk }
{
    core.known();
    let span = tile_span(core.catalogue(), address);
    let mut bytes = match vec![in alloc; 0; span.length as usize] {
        Err(fault) => return Err(fault),
        Ok(bytes) => bytes,
    };
    match file.read(kept.number, kept.place, &span, bytes.as_mut_slice()) {
        Err(_) => Ok(None),
        Ok(()) => Ok(Some(bytes)),
    }
}
