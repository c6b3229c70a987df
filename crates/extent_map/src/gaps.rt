//! The holes between the parts of one list.
ghost use Rattle.std.specs.Prelude.{◌+◌, ◌≤◌, IfSome, IfNone, drop, length, take};
ghost use Rattle.extent_map.specs.Holes.{first_start, last_end, FitsBeforeNone, IsGap, IsSummed};
ghost use Rattle.extent_map.specs.Parts.{LieInOrder};

use crate::holes::{end_before, fits, start_behind};
use crate::part::{Extent, Hole, Summary};

/// The larger of two numbers.
pub fn larger(one: u64, other: u64) -> u64
    ensures one { one ≤ result }
    ensures other { other ≤ result }
{
    if one < other { other } else { one }
}

/// How many bytes the hole between the part before an index and the one at it has; 0 where there are no two such parts.
pub fn hole_before(parts: &[Extent], size: u64, index: usize) -> u64
    requires ordered { LieInOrder 0 parts.now size }
    requires within { index ≤ length parts.now }
    ensures { 1 ≤ index → first_start (drop index parts.now) 0 ≤ last_end 0 (take index parts.now) + result }
{
    if index == 0 {
        return 0;
    }
    start_behind(parts, 0, index).saturating_sub(end_before(parts, size, index))
}

/// The first hole between two of the parts in which so many bytes fit.
pub fn first_gap(parts: &[Extent], size: u64, bytes: u32) -> Option<Hole>
    requires ordered { LieInOrder 0 parts.now size }
    requires some { 1 ≤ bytes }
    ensures gap { IfSome result (λ hole. IsGap parts.now hole.index hole.place bytes) }
    ensures none { IfNone result (FitsBeforeNone bytes (first_start parts.now 0) parts.now) }
{
    let mut index = 0;
    let mut place = start_behind(parts, 0, 0);
    while index < parts.len() {
        let part = parts[index];
        if fits(place, bytes, part.place) {
            return Some(Hole { index, place });
        }
        place = part.place + u64::from(part.length);
        index += 1;
    }
    None
}

/// The summary of the parts.
pub fn summary_of(parts: &[Extent], size: u64) -> Summary
    requires ordered { LieInOrder 0 parts.now size }
    ensures { IsSummed parts.now result.start result.end result.widest }
{
    let start = start_behind(parts, 0, 0);
    let mut end = start;
    let mut widest = 0;
    let mut index = 0;
    while index < parts.len() {
        let part = parts[index];
        widest = larger(widest, part.place.saturating_sub(end));
        end = part.place + u64::from(part.length);
        index += 1;
    }
    Summary { start, end, widest }
}
