//! How a record of any kind changes what a replay holds.
ghost use Rattle.cabinet_records.specs.Played.{IsPlayed, PlaysOrLacks};
ghost use Rattle.catalog.specs.Valid.{IsValid};

use crate::replay::cutting::cut;
use crate::replay::keeping::{play_counted, play_dropped, play_opened, play_stored};
use crate::replay::progress::ReplayProgress;
use cabinet::Kept;
use catalog::Catalogue;
use record_text::Record;
use std::alloc::{AllocError, Global};

/// Plays a record, and tells whether a cache has it there. Where none has, what is held means nothing any more. `AllocError` where
/// memory runs out; what is held then means what it did before.
pub fn play(
    progress: &mut ReplayProgress,
    alloc: Global,
    catalogue: &Catalogue,
    entry: &Record,
    place: u64,
) -> Result<bool, AllocError>
    requires valid { IsValid catalogue.now }
    requires played { IsPlayed catalogue.now place progress.old }
    ensures { PlaysOrLacks catalogue.now place progress.old entry.now result progress.new }
{
    match entry {
        Record::Opened(opening, floor) => Ok(play_opened(progress, *opening, *floor)),
        Record::Stored(number, meta, at, length, moment, uses) => {
            let kept = Kept {
                number: *number,
                meta: *meta,
                place: *at,
                length: *length,
                moment: *moment,
                uses: *uses,
            };
            play_stored(progress, alloc, catalogue, kept, place)
        }
        Record::Dropped(number, meta) => Ok(play_dropped(progress, catalogue, *number, meta)),
        Record::Cut(number, cover) => cut(progress, alloc, catalogue, *number, cover),
        Record::Uses(number, meta, uses) => {
            Ok(play_counted(progress, catalogue, *number, meta, *uses))
        }
    }
}
