//! How a command is written down: the file is made ready for its record, and then the record is entered. What contracts say of it
//! holds of each cabinet that the record leads to.
ghost use Rattle.std.specs.List.{AllByRecursion};
ghost use Rattle.std.specs.Prelude.{ℕ, ◌≡◌, ◌<◌, IsTrue, OnOk, Some, length};
ghost use Rattle.base.specs.Causes.{HasCause};
ghost use Rattle.cabinet.specs.Commands.{place_for};
ghost use Rattle.cabinet.specs.State.{State, now};
ghost use Rattle.cabinet_records.specs.Recorded.{stored_record};
ghost use Rattle.durable_cabinet.specs.Backing.{AreRegionsOf, Enters, RecordLeads, Rests, StoresBlob, WritesRecord, with_away};
ghost use Rattle.durable_cabinet.specs.Drafts.{HasRoom};
ghost use Rattle.durable_cabinet.specs.Filed.{IsFiled, IsHeldOn};
ghost use Rattle.gate_journal.specs.Sound.{IsSettled, room_of};
ghost use Rattle.raster_field.specs.Blocks.{IsMeta};
ghost use Rattle.record_text.specs.Fits.{Fits};

use crate::draft::CompactionDraft;
use crate::entries::record_of_keep;
use cabinet::{Core, Kept, tile_span};
use cache_file::CacheFile;
use disk_model::{Disk, Failed};
use metatile_plan::MetaKey;
use raster_field::first_tile;
use record_text::{Record, encode};

/// Makes the file ready for a record: settled, and with room, for which its records are replaced where there is none.
pub(crate) fn ready<D: Disk>(
    core: &Core,
    file: &mut CacheFile<D>,
    draft: &mut CompactionDraft,
) -> Result<(), Failed>
    requires filed { IsFiled core.now.state (D.told file.old.disk) file.old.start file.old.journal (D.state file.old.disk) }
    requires room { HasRoom core.now.state draft.old }
    ensures told { D.told file.new.disk ≡ D.told file.old.disk }
    ensures room { draft.new.room ≡ draft.old.room }
    ensures filed { IsFiled core.now.state (D.told file.old.disk) file.new.start file.new.journal (D.state file.new.disk) }
    ensures ok { OnOk result (IsSettled file.new.journal × (0 < room_of file.new.journal)) }
    ensures rests { Rests (D.told file.old.disk) core.now.state file.old.journal (D.state file.old.disk) (D.state file.new.disk) }
    ensures cause { HasCause (D.faults file.old.disk) (D.faults file.new.disk) result }
{
    core.known();
    if file.room() > 0 {
        return file.ready(&[]);
    }
    draft.fill(core);
    file.ready(draft.bodies())
}

/// Enters a record in a file that is ready.
pub(crate) fn enter<D: Disk>(
    core: &Core,
    file: &mut CacheFile<D>,
    entry: &Record,
) -> Result<(), Failed>
    requires filed { IsFiled core.now.state (D.told file.old.disk) file.old.start file.old.journal (D.state file.old.disk) }
    requires settled { IsSettled file.old.journal }
    requires room { 0 < room_of file.old.journal }
    requires fits { Fits entry.now }
    ensures told { D.told file.new.disk ≡ D.told file.old.disk }
    ensures settled { OnOk result (IsSettled file.new.journal) }
    ensures enters { (missed u : State) → RecordLeads core.now.state missed u entry.now
        → (IsTrue (D.told file.old.disk) → AllByRecursion (IsHeldOn core.now.state.catalogue (D.state file.old.disk)) (now u).kept)
        → Enters result (D.told file.old.disk) core.now.state missed u file.new.start file.new.journal (D.state file.old.disk) (D.state file.new.disk) }
    ensures cause { HasCause (D.faults file.old.disk) (D.faults file.new.disk) result }
{
    core.known();
    file.record(&encode(entry))
}

/// Makes the file ready for a record, and enters it.
pub(crate) fn write<D: Disk>(
    core: &Core,
    file: &mut CacheFile<D>,
    draft: &mut CompactionDraft,
    entry: &Record,
) -> Result<(), Failed>
    requires filed { IsFiled core.now.state (D.told file.old.disk) file.old.start file.old.journal (D.state file.old.disk) }
    requires room { HasRoom core.now.state draft.old }
    requires fits { Fits entry.now }
    ensures told { D.told file.new.disk ≡ D.told file.old.disk }
    ensures room { draft.new.room ≡ draft.old.room }
    ensures settled { OnOk result (IsSettled file.new.journal) }
    ensures writes { (missed u : State) → RecordLeads core.now.state missed u entry.now → AreRegionsOf core.now.state u
        → WritesRecord result (D.told file.old.disk) core.now.state missed u file.new.start file.old.journal file.new.journal (D.state file.old.disk) (D.state file.new.disk) }
    ensures cause { HasCause (D.faults file.old.disk) (D.faults file.new.disk) result }
{
    match ready(core, file, draft) {
        Err(fault) => Err(fault),
        Ok(()) => enter(core, file, entry),
    }
}

/// How many bytes each encoded tile of a metatile has.
fn tile_bytes(core: &Core, meta: &MetaKey) -> u32
    requires meta { IsMeta core.now.state.catalogue meta.now }
{
    core.known();
    tile_span(core.catalogue(), &first_tile(core.catalogue(), meta)).length
}

/// Puts the blob of what is to be kept into its gap, and then enters its record.
pub(crate) fn keep<D: Disk>(
    core: &Core,
    file: &mut CacheFile<D>,
    draft: &mut CompactionDraft,
    kept: Kept,
    blob: &[u8],
) -> Result<(), Failed>
    requires filed { IsFiled core.now.state (D.told file.old.disk) file.old.start file.old.journal (D.state file.old.disk) }
    requires room { HasRoom core.now.state draft.old }
    requires meta { IsMeta core.now.state.catalogue kept.meta }
    requires long { length blob.now ≡ kept.length }
    requires gap { place_for core.now.state kept.length ≡ Some kept.place }
    ensures told { D.told file.new.disk ≡ D.told file.old.disk }
    ensures room { draft.new.room ≡ draft.old.room }
    ensures settled { OnOk result (IsSettled file.new.journal) }
    ensures stores { (missed : State) → RecordLeads core.now.state missed (with_away core.now.state kept) (stored_record kept)
        → StoresBlob result (D.told file.old.disk) core.now.state missed kept blob.now file.new.start file.old.journal file.new.journal (D.state file.old.disk) (D.state file.new.disk) }
    ensures cause { HasCause (D.faults file.old.disk) (D.faults file.new.disk) result }
{
    core.known();
    let piece = tile_bytes(core, &kept.meta);
    match ready(core, file, draft) {
        Err(fault) => Err(fault),
        Ok(()) => match file.put(kept.number, piece, kept.place, blob) {
            Err(fault) => Err(fault),
            Ok(()) => enter(core, file, &record_of_keep(core.catalogue(), kept)),
        },
    }
}
