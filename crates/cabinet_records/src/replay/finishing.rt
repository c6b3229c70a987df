//! What a replay answers at its end, where each record is one that a cache has.
ghost use Rattle.std.specs.Prelude.{IfErr, IfOk, List, Option, length, ◌≡◌, ℕ};
ghost use Rattle.cabinet_records.specs.Played.{IsPlayed, replayed_of};
ghost use Rattle.cabinet_records.specs.Replay.{AreTooMany, IsLastCut, IsRestored, Replays, unplayed};
ghost use Rattle.cabinet_records.specs.Shows.{IsCutAt, IsReplayFinished};
ghost use Rattle.catalog.specs.declared.catalogue.Catalogue.{Catalogue};
ghost use Rattle.record_text.specs.declared.entries.Record.{Record};

use crate::replay::listing::restore_within;
use crate::replay::progress::ReplayProgress;
use crate::restored::Restored;

/// What was played is restored to, or the slot of the last cut where more are left than may be.
pub fn finish(progress: ReplayProgress, limit: u32, last_cut: Option<u64>) -> Result<Restored, u64>
    requires { (c : Catalogue) × (records : List (Option Record)) × IsReplayFinished c records progress limit last_cut }
    ensures ok { (c : Catalogue) (records : List (Option Record)) → IsReplayFinished c records progress limit last_cut → IfOk result (λ r. IsRestored c records r.opening r.kept.items r.cuts.book) }
    ensures err { (c : Catalogue) (records : List (Option Record)) → IsReplayFinished c records progress limit last_cut → IfErr result (λ slot. AreTooMany c records × IsLastCut records slot) }
{
    match restore_within(progress, limit) {
        Some(restored) => Ok(restored),
        None => match last_cut {
            Some(slot) => Err(slot),
            None => unreachable!(),
        },
    }
}
