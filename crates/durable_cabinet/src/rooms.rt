//! For how many records a compaction may come to need room.
ghost use Rattle.std.specs.Prelude.{IfOk, OnOk, ◌+◌, ◌≤◌};
ghost use Rattle.durable_cabinet.specs.Drafts.{needed};

use crate::draft::CompactionDraft;
use cabinet::Core;
use std::alloc::{AllocError, Global};

/// One more than for what stands. `AllocError` where that fits no number.
fn one_more(core: &Core) -> Result<usize, AllocError>
    ensures { IfOk result (λ count. needed core.now.state + 1 ≤ count) }
{
    let listed = core.cuts().count() as usize;
    let kept = core.kept() as usize;
    match core.running().checked_add(listed + kept + 2) {
        Some(count) => Ok(count),
        None => Err(AllocError),
    }
}

/// Makes room for the records of a compaction of one cut or metatile more than stand. `AllocError` where memory runs out; no room is
/// lost.
pub(crate) fn reserve_one_more(
    alloc: Global,
    core: &Core,
    draft: &mut CompactionDraft,
) -> Result<(), AllocError>
    ensures no_less { draft.old.room ≤ draft.new.room }
    ensures room { OnOk result (needed core.now.state + 1 ≤ draft.new.room) }
{
    match one_more(core) {
        Err(fault) => Err(fault),
        Ok(count) => draft.reserve(alloc, count),
    }
}
