//! The uses of what is kept, saved at the end of the work.
ghost use Rattle.std.specs.Prelude.{◌≤◌};
ghost use Rattle.cabinet.specs.State.{IsKnown};
ghost use Rattle.cache_core.specs.Lasting.{Lasting};
ghost use Rattle.opened_cache.specs.Saving.{SavesAll};
ghost use Rattle.sessions.specs.Outside.{counts};

use cabinet::Keeper;
use cache_access::{Alone, save_uses_of};

/// Saves the uses of one metatile after the other, until all are saved or the disk fails. It takes no memory.
pub fn save_all<C: Keeper>(cabinet: &mut C)
    ensures saves { SavesAll (counts (C.faults cabinet.old) (C.faults cabinet.new)) (C.state cabinet.old) (C.state cabinet.new) }
    ensures lasts { Lasting (C.outlasts cabinet.old cabinet.new) (C.state cabinet.old) (C.state cabinet.new) }
    ensures known { IsKnown (C.state cabinet.new) }
    ensures later { C.faults cabinet.old ≤ C.faults cabinet.new }
{
    // each turn but the last saves the uses of a metatile that is kept
    let most = u64::from(cabinet.kept()) + 1;
    let _ = save_uses_of(&Alone::new(), cabinet, most);
    cabinet.known();
}
