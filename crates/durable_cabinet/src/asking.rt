//! How a tile is asked for: what is kept of its metatile is read, out of the hot tier or from the disk, before anything changes.
ghost use Rattle.std.specs.Prelude.{◌≡◌, ◌+◌, ◌≤◌, ℕ, Bool, IfOk, OnErr, Some};
ghost use Rattle.cabinet.specs.Commands.{Asks, IsUnread};
ghost use Rattle.cabinet.specs.History.{kept_of};
ghost use Rattle.cabinet.specs.State.{asked_at, now};
ghost use Rattle.catalog.specs.LookUp.{IsTile};
ghost use Rattle.disk_model.specs.Content.{Content};
ghost use Rattle.durable_cabinet.specs.Alike.{IsAlikeTo};
ghost use Rattle.durable_cabinet.specs.Backing.{Rests};
ghost use Rattle.durable_cabinet.specs.Drafts.{needed};
ghost use Rattle.durable_cabinet.specs.Filed.{IsFiled, on_disk};
ghost use Rattle.durable_cabinet.specs.Hot.{IsHot, StaysHot};
ghost use Rattle.durable_cabinet.specs.Tiles.{IsTilePartOf};
ghost use Rattle.raster_field.specs.Blocks.{block_of};

use crate::hot::HotTier;
use crate::reading::read_part;
use base::SharedText;
use cabinet::{Asked, Core, Kept, as_asked};
use cache_file::CacheFile;
use disk_model::Disk;
use matrix_geometry::Address;
use raster_field::block_of;
use std::alloc::{AllocError, Global};

/// Asks for a tile of which nothing is read. `AllocError` where memory runs out; all is then as before.
fn ask_unread(alloc: Global, core: &mut Core, address: &Address) -> Result<Asked, AllocError>
    requires tile { IsTile core.old.state.catalogue address.now }
    ensures asked { IfOk result (λ asked. (told : Bool) (seen : Content) (before after : ℕ) → ((n : ℕ) → IsUnread before after (asked_at n core.old.state) address.now)
        → Asks before after (on_disk told seen core.old.state) address.now asked (on_disk told seen core.new.state)) }
    ensures err { OnErr result (core.new.state ≡ core.old.state) }
    ensures alike { IsAlikeTo core.old.state core.new.state }
    ensures hot { StaysHot core.old.state core.new.state }
    ensures room { needed core.new.state ≤ needed core.old.state + 1 }
{
    core.known();
    let meta = block_of(core.catalogue(), address);
    let forced = match core.force(alloc, &meta) {
        Err(fault) => return Err(fault),
        Ok(forced) => forced,
    };
    Ok(as_asked(forced))
}

/// Asks for a tile whose part of what is kept was read. `AllocError` where memory runs out; all is then as before.
fn ask_read(
    alloc: Global,
    core: &mut Core,
    address: &Address,
    kept: Kept,
    text: SharedText,
) -> Result<Asked, AllocError>
    requires tile { IsTile core.old.state.catalogue address.now }
    requires kept { kept_of (block_of core.old.state.catalogue address.now) (now core.old.state) ≡ Some kept }
    ensures asked { IfOk result (λ asked. (told : Bool) (seen : Content) (before after : ℕ) → IsTilePartOf told core.old.state.catalogue seen address.now kept text
        → Asks before after (on_disk told seen core.old.state) address.now asked (on_disk told seen core.new.state)) }
    ensures err { OnErr result (core.new.state ≡ core.old.state) }
    ensures alike { IsAlikeTo core.old.state core.new.state }
    ensures hot { StaysHot core.old.state core.new.state }
    ensures room { needed core.new.state ≤ needed core.old.state + 1 }
{
    core.known();
    let forced = match core.ask_kept(alloc, address) {
        Err(fault) => return Err(fault),
        Ok(forced) => forced,
    };
    match forced {
        None => Ok(Asked::Hit(kept.number, text)),
        Some(forced) => Ok(as_asked(forced)),
    }
}

/// Asks for a tile whose part of what is kept was read from the disk; a hit shares it with the hot tier, unless memory runs out for that.
/// `AllocError` where memory runs out for the ask; all is then as before.
fn ask_warming(
    alloc: Global,
    core: &mut Core,
    hot: &mut HotTier,
    address: &Address,
    kept: Kept,
    bytes: Vec<u8>,
) -> Result<Asked, AllocError>
    requires tile { IsTile core.old.state.catalogue address.now }
    requires kept { kept_of (block_of core.old.state.catalogue address.now) (now core.old.state) ≡ Some kept }
    ensures asked { IfOk result (λ asked. (told : Bool) (seen : Content) (before after : ℕ) → IsTilePartOf told core.old.state.catalogue seen address.now kept bytes.items
        → Asks before after (on_disk told seen core.old.state) address.now asked (on_disk told seen core.new.state)) }
    ensures err { OnErr result (core.new.state ≡ core.old.state) }
    ensures alike { IsAlikeTo core.old.state core.new.state }
    ensures hot { (told : Bool) (seen : Content) → IsTilePartOf told core.old.state.catalogue seen address.now kept bytes.items → IsHot told core.old.state seen hot.old → IsHot told core.new.state seen hot.new }
    ensures room { needed core.new.state ≤ needed core.old.state + 1 }
{
    core.known();
    let text = match SharedText::of(alloc, bytes) {
        Err(fault) => return Err(fault),
        Ok(text) => text,
    };
    let forced = match core.ask_kept(alloc, address) {
        Err(fault) => return Err(fault),
        Ok(forced) => forced,
    };
    match forced {
        None => {
            let _ = hot.put(address, kept.number, &text);
            Ok(Asked::Hit(kept.number, text))
        }
        Some(forced) => Ok(as_asked(forced)),
    }
}

/// Asks for a tile whose part of what is kept isn't in the hot tier: it is read from the disk, and where that fails a render is asked
/// for. `AllocError` where memory runs out; what is kept and runs is then as before.
fn ask_disk<D: Disk>(
    alloc: Global,
    core: &mut Core,
    file: &mut CacheFile<D>,
    hot: &mut HotTier,
    address: &Address,
    kept: Kept,
) -> Result<Asked, AllocError>
    requires filed { IsFiled core.old.state (D.told file.old.disk) file.old.start file.old.journal (D.state file.old.disk) }
    requires tile { IsTile core.old.state.catalogue address.now }
    requires kept { kept_of (block_of core.old.state.catalogue address.now) (now core.old.state) ≡ Some kept }
    requires hot { IsHot (D.told file.old.disk) core.old.state (D.state file.old.disk).seen hot.old }
    ensures asked { IfOk result (λ asked. Asks (D.faults file.old.disk) (D.faults file.new.disk) (on_disk (D.told file.old.disk) (D.state file.old.disk).seen core.old.state) address.now asked (on_disk (D.told file.old.disk) (D.state file.new.disk).seen core.new.state)) }
    ensures err { OnErr result (core.new.state ≡ core.old.state) }
    ensures told { D.told file.new.disk ≡ D.told file.old.disk }
    ensures filed { IsFiled core.new.state (D.told file.new.disk) file.new.start file.new.journal (D.state file.new.disk) }
    ensures journal { file.new.journal ≡ file.old.journal }
    ensures rests { Rests (D.told file.old.disk) core.old.state file.old.journal (D.state file.old.disk) (D.state file.new.disk) }
    ensures hot { IsHot (D.told file.new.disk) core.new.state (D.state file.new.disk).seen hot.new }
    ensures room { needed core.new.state ≤ needed core.old.state + 1 }
    ensures later { D.faults file.old.disk ≤ D.faults file.new.disk }
{
    match read_part(alloc, core, file, address, kept) {
        Err(fault) => Err(fault),
        Ok(None) => ask_unread(alloc, core, address),
        Ok(Some(bytes)) => ask_warming(alloc, core, hot, address, kept, bytes),
    }
}

/// Asks for a tile whose metatile is kept: the hot tier serves it where it has the text of what is kept, else the disk does.
/// `AllocError` where memory runs out; what is kept and runs is then as before.
fn ask_either<D: Disk>(
    alloc: Global,
    core: &mut Core,
    file: &mut CacheFile<D>,
    hot: &mut HotTier,
    address: &Address,
    kept: Kept,
) -> Result<Asked, AllocError>
    requires filed { IsFiled core.old.state (D.told file.old.disk) file.old.start file.old.journal (D.state file.old.disk) }
    requires tile { IsTile core.old.state.catalogue address.now }
    requires kept { kept_of (block_of core.old.state.catalogue address.now) (now core.old.state) ≡ Some kept }
    requires hot { IsHot (D.told file.old.disk) core.old.state (D.state file.old.disk).seen hot.old }
    ensures asked { IfOk result (λ asked. Asks (D.faults file.old.disk) (D.faults file.new.disk) (on_disk (D.told file.old.disk) (D.state file.old.disk).seen core.old.state) address.now asked (on_disk (D.told file.old.disk) (D.state file.new.disk).seen core.new.state)) }
    ensures err { OnErr result (core.new.state ≡ core.old.state) }
    ensures told { D.told file.new.disk ≡ D.told file.old.disk }
    ensures filed { IsFiled core.new.state (D.told file.new.disk) file.new.start file.new.journal (D.state file.new.disk) }
    ensures journal { file.new.journal ≡ file.old.journal }
    ensures rests { Rests (D.told file.old.disk) core.old.state file.old.journal (D.state file.old.disk) (D.state file.new.disk) }
    ensures hot { IsHot (D.told file.new.disk) core.new.state (D.state file.new.disk).seen hot.new }
    ensures room { needed core.new.state ≤ needed core.old.state + 1 }
    ensures later { D.faults file.old.disk ≤ D.faults file.new.disk }
{
    match hot.text_of(address, kept.number) {
        Err(fault) => Err(fault),
        Ok(None) => ask_disk(alloc, core, file, hot, address, kept),
        Ok(Some(text)) => ask_read(alloc, core, address, kept, text),
    }
}

/// Asks for a tile. What is kept of its metatile is read; where that fails a render is asked for. `AllocError` where memory runs out;
/// what is kept and runs is then as before.
pub(crate) fn ask_tile<D: Disk>(
    alloc: Global,
    core: &mut Core,
    file: &mut CacheFile<D>,
    hot: &mut HotTier,
    address: &Address,
) -> Result<Asked, AllocError>
    requires filed { IsFiled core.old.state (D.told file.old.disk) file.old.start file.old.journal (D.state file.old.disk) }
    requires tile { IsTile core.old.state.catalogue address.now }
    requires hot { IsHot (D.told file.old.disk) core.old.state (D.state file.old.disk).seen hot.old }
    ensures asked { IfOk result (λ asked. Asks (D.faults file.old.disk) (D.faults file.new.disk) (on_disk (D.told file.old.disk) (D.state file.old.disk).seen core.old.state) address.now asked (on_disk (D.told file.old.disk) (D.state file.new.disk).seen core.new.state)) }
    ensures err { OnErr result (core.new.state ≡ core.old.state) }
    ensures told { D.told file.new.disk ≡ D.told file.old.disk }
    ensures filed { IsFiled core.new.state (D.told file.new.disk) file.new.start file.new.journal (D.state file.new.disk) }
    ensures journal { file.new.journal ≡ file.old.journal }
    ensures rests { Rests (D.told file.old.disk) core.old.state file.old.journal (D.state file.old.disk) (D.state file.new.disk) }
    ensures hot { IsHot (D.told file.new.disk) core.new.state (D.state file.new.disk).seen hot.new }
    ensures room { needed core.new.state ≤ needed core.old.state + 1 }
    ensures later { D.faults file.old.disk ≤ D.faults file.new.disk }
{
    core.known();
    let meta = block_of(core.catalogue(), address);
    match core.kept_of(&meta) {
        None => ask_unread(alloc, core, address),
        Some(kept) => ask_either(alloc, core, file, hot, address, kept),
    }
}
