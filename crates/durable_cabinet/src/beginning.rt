//! How an opening is written down.
ghost use Rattle.std.specs.Option.{option_map_or};
ghost use Rattle.std.specs.Prelude.{◌≡◌, ◌+◌, ◌<◌, ◌≤◌, ◌^◌, [], false, IfNone, IfOk, IfSome, IsTrue, OnErr, OnOk, length};
ghost use Rattle.base.specs.Causes.{HasCause};
ghost use Rattle.cabinet.specs.State.{now};
ghost use Rattle.durable_cabinet.specs.Drafts.{HasRoom, most_left};
ghost use Rattle.durable_cabinet.specs.Images.{slots_for};
ghost use Rattle.durable_cabinet.specs.Openings.{EntersOpening, IsOpeningBegun};
ghost use Rattle.gate_journal.specs.Sound.{IsAlike, IsSettled, room_of, slots_of, version_of};

use crate::draft::{CompactionDraft, opened_body};
use crate::replaying::slots_for;
use cabinet::Core;
use cache_file::CacheFile;
use disk_model::{Disk, Failed};
use std::alloc::{AllocError, Global};

/// The number of the opening that follows the last one; `None` where it would not fit 24 bits.
pub(crate) fn number_after(opening: Option<u32>) -> Option<u32>
    ensures some { IfSome result (λ n. (n ≡ option_map_or (λ e. e) opening 0 + 1) × (n < 2 ^ 24)) }
    ensures none { IfNone result (2 ^ 24 ≤ option_map_or (λ e. e) opening 0 + 1) }
{
    let last = match opening {
        Some(number) => number,
        None => 0,
    };
    if last < 0x00ff_ffff {
        return Some(last + 1);
    }
    None
}

/// A draft with room for a compaction of a core that was just opened.
pub(crate) fn draft_of(alloc: Global, core: &Core) -> Result<CompactionDraft, AllocError>
    requires { core.now.state.since ≡ [] }
    ensures { IfOk result (HasRoom core.now.state) }
{
    let mut draft = CompactionDraft::new(alloc)?;
    let count = 1 + core.cuts().count() as usize + core.kept() as usize;
    draft.reserve(alloc, count)?;
    Ok(draft)
}

/// How many records beyond twice those of a compaction are left as they are.
const LEFT: u64 = 1024;

/// Whether a file has far more records than a compaction of a core would write. Each opening plays all of them, so they are replaced
/// once, and from then on an opening takes as long as what is kept and in force.
fn is_overgrown<D: Disk>(core: &Core, file: &CacheFile<D>) -> bool
    requires { slots_of file.now.journal ≡ slots_for core.now.state.catalogue }
    ensures { result ≡ false → slots_of file.now.journal ≤ room_of file.now.journal + most_left core.now.state }
{
    let records = slots_for(core.catalogue()).saturating_sub(file.room());
    let compacted = 1 + u64::from(core.cuts().count()) + u64::from(core.kept());
    records > 2 * compacted + LEFT
}

/// Whether the records of a file are to be replaced before others are added: they are of version 1, or there is no room, or they are far
/// more than a compaction would write.
fn is_to_move<D: Disk>(core: &Core, file: &CacheFile<D>) -> bool
    requires { slots_of file.now.journal ≡ slots_for core.now.state.catalogue }
    ensures moves { result ≡ false → version_of file.now.journal ≡ 2 }
    ensures room { result ≡ false → 0 < room_of file.now.journal }
    ensures few { result ≡ false → slots_of file.now.journal ≤ room_of file.now.journal + most_left core.now.state }
{
    if file.version() != 2 {
        return true;
    }
    if file.room() == 0 {
        return true;
    }
    is_overgrown(core, file)
}

/// Makes an opening durable. Where its journal is of version 1 or has no room, or has far more records than that takes, what is opened is
/// written anew, with the opening as its first record; else the record of the opening is added.
pub(crate) fn write_opening<D: Disk>(
    core: &Core,
    draft: &mut CompactionDraft,
    file: &mut CacheFile<D>,
) -> Result<(), Failed>
    requires begun { IsOpeningBegun (D.told file.old.disk) core.now.state (D.state file.old.disk) file.old.start file.old.journal }
    requires room { HasRoom core.now.state draft.old }
    ensures told { D.told file.new.disk ≡ D.told file.old.disk }
    ensures start { file.new.start ≡ file.old.start }
    ensures alike { IsAlike file.old.journal file.new.journal }
    ensures version { OnOk result (version_of file.new.journal ≡ 2) }
    ensures ok { OnOk result (IsSettled file.new.journal) }
    ensures room { HasRoom core.now.state draft.new }
    ensures enters { IsTrue (D.told file.old.disk) → EntersOpening core.now.state result file.old.start file.old.journal file.new.journal (D.state file.old.disk) (D.state file.new.disk) }
    ensures cause { HasCause (D.faults file.old.disk) (D.faults file.new.disk) result }
{
    core.known();
    if is_to_move(core, file) {
        draft.fill(core);
        return file.replace(draft.bodies());
    }
    file.record(&opened_body(core.opening(), core.cuts().floor()))
}
