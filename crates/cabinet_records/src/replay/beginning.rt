//! What a replay holds before the first record.
ghost use Rattle.std.specs.Prelude.{IfOk, ◌≡◌};
ghost use Rattle.cabinet_records.specs.Played.{IsPlayed, replayed_of};
ghost use Rattle.cabinet_records.specs.Replay.{unplayed};
ghost use Rattle.catalog.specs.Valid.{IsValid};

use crate::replay::cuts::ReplayCuts;
use crate::replay::progress::ReplayProgress;
use cabinet::Store;
use catalog::Catalogue;
use extent_map::Extents;
use indexmap::IndexMap;
use std::alloc::{AllocError, Global};

/// Nothing was played yet. `AllocError` where memory runs out.
pub fn begin(alloc: Global, catalogue: &Catalogue) -> Result<ReplayProgress, AllocError>
    requires { IsValid catalogue.now }
    ensures none { IfOk result (λ p. replayed_of p ≡ unplayed) }
    ensures played { IfOk result (λ p. IsPlayed catalogue.now 0 p) }
{
    let regions = match Extents::new(alloc, catalogue.blob_bytes) {
        Err(fault) => return Err(fault),
        Ok(regions) => regions,
    };
    let cuts = match ReplayCuts::new(alloc) {
        Err(fault) => return Err(fault),
        Ok(cuts) => cuts,
    };
    Ok(ReplayProgress {
        opening: None,
        floor: 0,
        store: Store::new(alloc),
        regions,
        places: IndexMap::new(alloc),
        cuts,
        out: Vec::new(alloc),
    })
}
