//! What a replay keeps of each record: whether it is the first that no cache has, or that version 1 doesn't have, or the last cut.
ghost use Rattle.std.specs.Prelude.{IfOk, List, OnErr, Option, [], length, ◌++◌, ◌∷◌, ◌≡◌, ℕ, if◌then◌else◌};
ghost use Rattle.cabinet_records.specs.Replay.{is_cut};
ghost use Rattle.cabinet_records.specs.Shows.{IsCutAt, IsLateAt, StandsAt, first_bad, first_of, is_late};
ghost use Rattle.catalog.specs.Valid.{IsValid};
ghost use Rattle.record_text.specs.declared.entries.Record.{Record as Entry};

use crate::replay::entering::play;
use crate::replay::progress::ReplayProgress;
use catalog::Catalogue;
use record_text::Record;
use std::alloc::{AllocError, Global};

/// Plays one more record, which stands in the slot `count`, unless a record before it is one that no cache has. Answers the slot of
/// the first record that no cache has. `AllocError` where memory runs out.
pub fn judge(
    progress: &mut ReplayProgress,
    alloc: Global,
    catalogue: &Catalogue,
    entry: &Option<Record>,
    bad: Option<u64>,
    count: u64,
) -> Result<Option<u64>, AllocError>
    requires valid { IsValid catalogue.now }
    requires stands { (records : List (Option Entry)) × (count ≡ length records) × StandsAt catalogue.now records progress.old bad }
    ensures more { (records : List (Option Entry)) → count ≡ length records → StandsAt catalogue.now records progress.old bad → IfOk result (λ new. StandsAt catalogue.now (records ++ entry.now ∷ []) progress.new new) }
    ensures same { (records : List (Option Entry)) → count ≡ length records → StandsAt catalogue.now records progress.old bad → OnErr result (StandsAt catalogue.now records progress.new bad) }
{
    match bad {
        Some(slot) => Ok(Some(slot)),
        None => match entry {
            None => Ok(Some(count)),
            Some(entry) => match play(progress, alloc, catalogue, entry, count) {
                Err(fault) => Err(fault),
                Ok(true) => Ok(None),
                Ok(false) => Ok(Some(count)),
            },
        },
    }
}

/// Whether version 1 doesn't have a record, or the body is that of none.
fn is_late(entry: &Option<Record>) -> bool
    ensures { result ≡ is_late entry.now }
{
    match entry {
        None => true,
        Some(entry) => match entry {
            Record::Opened(_, _) => false,
            Record::Stored(_, _, _, _, moment, uses) => !(*moment == 0 && *uses == 0),
            Record::Dropped(_, _) => false,
            Record::Cut(_, _) => false,
            Record::Uses(_, _, _) => true,
        },
    }
}

/// The slot of the first record that version 1 doesn't have, with one more.
pub fn late_after(later: Option<u64>, entry: &Option<Record>, count: u64) -> Option<u64>
    ensures { (records : List (Option Entry)) → count ≡ length records → IsLateAt records later → IsLateAt (records ++ entry.now ∷ []) result }
{
    match later {
        Some(slot) => Some(slot),
        None => {
            if is_late(entry) {
                return Some(count);
            }
            None
        }
    }
}

fn is_cut(entry: &Option<Record>) -> bool
    ensures { result ≡ is_cut entry.now }
{
    match entry {
        None => false,
        Some(entry) => match entry {
            Record::Opened(_, _) => false,
            Record::Stored(_, _, _, _, _, _) => false,
            Record::Dropped(_, _) => false,
            Record::Cut(_, _) => true,
            Record::Uses(_, _, _) => false,
        },
    }
}

/// The slot of the last cut, with one more record.
pub fn cut_after(last: Option<u64>, entry: &Option<Record>, count: u64) -> Option<u64>
    ensures { (records : List (Option Entry)) → count ≡ length records → IsCutAt records last → IsCutAt (records ++ entry.now ∷ []) result }
{
    if is_cut(entry) {
        return Some(count);
    }
    last
}

fn first_of(bad: Option<u64>, later: Option<u64>) -> Option<u64>
    ensures { result ≡ first_of bad later }
{
    match bad {
        None => later,
        Some(bad) => match later {
            None => Some(bad),
            Some(later) => {
                if later < bad {
                    return Some(later);
                }
                Some(bad)
            }
        },
    }
}

/// The slot of the first record that no cache has in a version.
pub fn first_bad(version: u8, bad: Option<u64>, later: Option<u64>) -> Option<u64>
    ensures { result ≡ first_bad version bad later }
{
    if version == 1 {
        return first_of(bad, later);
    }
    bad
}
