//! Holes between parts that lie in order.
ghost use Rattle.std.specs.Prelude.{◌≡◌, ◌+◌, ◌<◌, ◌≤◌, IfSome, IfNone, All, AllPairs, Contains, length, slice_index_or, take, drop, nat_le};
ghost use Rattle.extent_map.specs.Holes.{first_start, last_end, IsHole};
ghost use Rattle.extent_map.specs.Parts.{part_at, LieInOrder};
ghost use Rattle.extent_map.specs.Spaces.{IsFree};

use crate::part::Extent;

/// Whether so many bytes from a place on end at or before another place.
pub fn fits(place: u64, bytes: u32, high: u64) -> bool
    ensures { result ≡ nat_le (place + bytes) high }
{
    place <= high && u64::from(bytes) <= high - place
}

/// How many of the parts start before a place.
pub fn starts_before(parts: &[Extent], place: u64) -> usize
    requires rising { AllPairs (λ p q. p.place < q.place) parts.now }
    ensures within { result ≤ length parts.now }
    ensures before { All (λ q. q.place < place) (take result parts.now) }
    ensures behind { All (λ q. place ≤ q.place) (drop result parts.now) }
{
    parts.partition_point(|part| part.place < place)
}

/// Where the last of so many parts ends; 0 where there are none.
pub fn end_before(parts: &[Extent], size: u64, index: usize) -> u64
    requires ordered { LieInOrder 0 parts.now size }
    requires within { index ≤ length parts.now }
    ensures { result ≡ last_end 0 (take index parts.now) }
{
    if index == 0 {
        return 0;
    }
    let last = parts[index - 1];
    last.place + u64::from(last.length)
}

/// Where the first part after so many starts; the size where there is none.
pub fn start_behind(parts: &[Extent], size: u64, index: usize) -> u64
    ensures { result ≡ first_start (drop index parts.now) size }
{
    if index < parts.len() {
        return parts[index].place;
    }
    size
}

/// How many of the parts lie before a part that is free; `None` exactly where it is not free.
pub fn hole_at(parts: &[Extent], size: u64, place: u64, bytes: u32) -> Option<usize>
    requires ordered { LieInOrder 0 parts.now size }
    requires some { 1 ≤ bytes }
    ensures hole { IfSome result (λ index. IsHole parts.now size index (part_at place bytes)) }
    ensures none { IfNone result (IsFree parts.now size (part_at place bytes) → ⊥) }
{
    let index = starts_before(parts, place);
    let low = end_before(parts, size, index);
    if low > place {
        return None;
    }
    let high = start_behind(parts, size, index);
    if !fits(place, bytes, high) {
        return None;
    }
    Some(index)
}

/// The index of a part.
pub fn index_of(parts: &[Extent], part: Extent) -> usize
    requires rising { AllPairs (λ p q. p.place < q.place) parts.now }
    requires known { Contains parts.now part }
    ensures within { result < length parts.now }
    ensures at { slice_index_or parts.now result part ≡ part }
{
    starts_before(parts, part.place)
}
