//! The reports of a worker.
ghost use Rattle.std.specs.Prelude.{◌≡◌};
ghost use Rattle.job_board.specs.Hands.{MayReport};
ghost use Rattle.seed_jobs.specs.Reports.{Reports};

use job_board::{Hand, JobSheet};
use job_places::PlaceEnd;

/// Reports a place as it ended: done, done but not kept, or failed.
pub(crate) fn report(sheet: &JobSheet, hand: &mut Hand, place: u64, end: &PlaceEnd)
    requires own { hand.old.sheet ≡ sheet.now }
    requires unreported { MayReport hand.old place }
    ensures { Reports hand.old hand.new place end.now }
{
    match end {
        PlaceEnd::Done => sheet.done(hand, place),
        PlaceEnd::Unkept => sheet.unkept(hand, place),
        PlaceEnd::Failed(_) => sheet.failed(hand, place),
    }
}
