//! How a record of a cut changes what a replay holds.
ghost use Rattle.std.specs.Prelude.{ℕ};
ghost use Rattle.cabinet_records.specs.Played.{IsPlayed, PlaysOrLacks};
ghost use Rattle.catalog.specs.Valid.{IsValid};

use crate::replay::allowed::may_cut;
use crate::replay::progress::ReplayProgress;
use crate::replay::sparing::spare;
use catalog::Catalogue;
use record_text::Record;
use std::alloc::{AllocError, Global};
use truncation_list::Cover;

/// Plays a record of a cut. `AllocError` where memory runs out.
pub fn cut(
    progress: &mut ReplayProgress,
    alloc: Global,
    catalogue: &Catalogue,
    number: u64,
    cover: &Cover,
) -> Result<bool, AllocError>
    requires valid { IsValid catalogue.now }
    requires played { (next : ℕ) × IsPlayed catalogue.now next progress.old }
    ensures { (next : ℕ) → IsPlayed catalogue.now next progress.old → PlaysOrLacks catalogue.now next progress.old (Record.Cut number cover.now) result progress.new }
{
    if !may_cut(progress, catalogue, number, cover) {
        return Ok(false);
    }
    match progress.cuts.reserve(alloc, cover) {
        Err(fault) => return Err(fault),
        Ok(()) => {}
    }
    spare(
        &mut progress.store,
        &mut progress.regions,
        &mut progress.places,
        catalogue,
        cover,
    );
    progress.cuts.enter(number, cover);
    Ok(true)
}
