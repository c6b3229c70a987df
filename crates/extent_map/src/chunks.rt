//! The search among chunks that lie in order, one behind the other. Chunks with no part may stand among them.
ghost use Rattle.std.specs.Prelude.{◌≡◌, ◌+◌, ◌<◌, ◌≤◌, [], Contains, IfSome, IfNone, IsFalse, IsTrue, ℕ, length, slice_index_or, suc, take};
ghost use Rattle.extent_map.specs.Chunks.{all_parts, chunk_at, chunk_room, parts_before, parts_behind, AreCrowded, FitsAt, IsSpot};
ghost use Rattle.extent_map.specs.Holes.{last_end, FitsBeforeNone, IsFirstHole};
ghost use Rattle.extent_map.specs.Parts.{part_at, LieInOrder};
ghost use Rattle.extent_map.specs.Spaces.{IsFree, NoneFree, NoneFreeBelow};

use crate::chunk::{Chunk, ROOM};
use crate::holes::{fits, hole_at, index_of};
use crate::part::{Extent, ExtentSpot, FoundHole, Hole};

/// The first so many chunks.
pub fn first_of(chunks: &[Chunk], used: usize) -> &[Chunk]
    requires within { used ≤ length chunks.now }
    ensures { result.now ≡ take used chunks.now }
{
    &chunks[..used]
}

/// The number of the last chunk that has a part; 0 where none has.
fn last_used(chunks: &[Chunk]) -> usize
    requires some { 0 < length chunks.now }
    ensures known { result < length chunks.now }
    ensures others { (k : ℕ) → result < k → chunk_at chunks.now k ≡ [] }
{
    let mut chunk = chunks.len() - 1;
    while chunk > 0 {
        if chunks[chunk].len() > 0 {
            return chunk;
        }
        chunk -= 1;
    }
    chunk
}

/// The spot behind all parts.
fn end_spot(chunks: &[Chunk]) -> ExtentSpot
    requires some { 0 < length chunks.now }
    ensures spot { IsSpot chunks.now result.chunk result.index }
    ensures before { parts_before chunks.now result.chunk result.index ≡ all_parts chunks.now }
    ensures behind { parts_behind chunks.now result.chunk result.index ≡ [] }
{
    let chunk = last_used(chunks);
    ExtentSpot {
        chunk,
        index: chunks[chunk].len(),
    }
}

/// The hole in a chunk, or before it, in which so many bytes fit: from the place on where the chunk before ends.
fn hole_in(chunk: &Chunk, size: u64, place: u64, bytes: u32) -> Option<Hole>
    requires ordered { LieInOrder place chunk.now size }
    requires some { 1 ≤ bytes }
    ensures hole { IfSome result (λ hole. IsFirstHole chunk.now place hole.index hole.place bytes) }
    ensures none { IfNone result (FitsBeforeNone bytes place chunk.now) }
{
    if fits(place, bytes, chunk.start()) {
        return Some(Hole { index: 0, place });
    }
    chunk.gap(size, bytes)
}

/// Where a chunk ends; the place where the one before it ends, where it has no part.
fn end_behind(chunk: &Chunk, place: u64) -> u64
    ensures { result ≡ last_end place chunk.now }
{
    if chunk.len() == 0 { place } else { chunk.end() }
}

/// The lowest hole in which a part of so many bytes fits.
pub fn lowest_hole(chunks: &[Chunk], size: u64, bytes: u32) -> Option<FoundHole>
    requires ordered { LieInOrder 0 (all_parts chunks.now) size }
    requires chunks { 0 < length chunks.now }
    requires some { 1 ≤ bytes }
    ensures fits { IfSome result (λ found. FitsAt chunks.now size found.spot.chunk found.spot.index (part_at found.place bytes)) }
    ensures lowest { IfSome result (λ found. NoneFreeBelow (all_parts chunks.now) size bytes found.place) }
    ensures none { IfNone result (NoneFree (all_parts chunks.now) size bytes) }
{
    let mut chunk = 0;
    let mut place = 0;
    while chunk < chunks.len() {
        match hole_in(&chunks[chunk], size, place, bytes) {
            Some(hole) => {
                return Some(FoundHole {
                    spot: ExtentSpot {
                        chunk,
                        index: hole.index,
                    },
                    place: hole.place,
                });
            }
            None => {
                place = end_behind(&chunks[chunk], place);
                chunk += 1;
            }
        }
    }
    if fits(place, bytes, size) {
        return Some(FoundHole {
            spot: end_spot(chunks),
            place,
        });
    }
    None
}

/// The number of the first chunk that ends behind a place, the number of chunks where none does: found by going through them.
fn first_behind(chunks: &[Chunk], place: u64) -> usize
    ensures within { result ≤ length chunks.now }
    ensures before { (k : ℕ) → k < result → last_end 0 (chunk_at chunks.now k) ≤ place }
    ensures at { result < length chunks.now → place < last_end 0 (chunk_at chunks.now result) }
{
    let mut chunk = 0;
    while chunk < chunks.len() {
        if chunks[chunk].end() > place {
            return chunk;
        }
        chunk += 1;
    }
    chunk
}

/// The last chunk that has a part, from one down to a lower one; that lower one where none behind it has.
fn last_used_in(chunks: &[Chunk], low: usize, chunk: usize) -> usize
    requires low { low ≤ chunk }
    requires known { chunk < length chunks.now }
    ensures low { low ≤ result }
    ensures within { result ≤ chunk }
    ensures some { low < result → 1 ≤ length (chunk_at chunks.now result) }
    ensures others { (k : ℕ) → result < k → k ≤ chunk → chunk_at chunks.now k ≡ [] }
{
    let mut used = chunk;
    while used > low {
        if chunks[used].len() > 0 {
            return used;
        }
        used -= 1;
    }
    used
}

/// The number that the first chunk that ends behind a place is likely to have: found by halving, where a chunk with no part counts
/// as the one before it. It is a guess, of which nothing else is said.
fn likely_chunk(chunks: &[Chunk], place: u64) -> usize
    ensures { result ≤ length chunks.now }
{
    let mut low = 0;
    let mut high = chunks.len();
    while low < high {
        let middle = low + (high - low) / 2;
        let used = last_used_in(chunks, low, middle);
        if chunks[used].end() > place {
            high = used;
        } else {
            low = middle + 1;
        }
    }
    low
}

/// Whether a chunk is the first that ends behind a place; of the number of chunks, whether none does.
fn is_first_behind(chunks: &[Chunk], size: u64, chunk: usize, place: u64) -> bool
    requires ordered { LieInOrder 0 (all_parts chunks.now) size }
    requires within { chunk ≤ length chunks.now }
    ensures before { IsTrue result → (k : ℕ) → k < chunk → last_end 0 (chunk_at chunks.now k) ≤ place }
    ensures at { IsTrue result → chunk < length chunks.now → place < last_end 0 (chunk_at chunks.now chunk) }
{
    if chunk < chunks.len() {
        if chunks[chunk].end() <= place {
            return false;
        }
    }
    if chunk == 0 {
        return true;
    }
    let before = last_used_in(chunks, 0, chunk - 1);
    chunks[before].end() <= place
}

/// The number of the first chunk that ends behind a place; the number of chunks where none does.
fn chunk_of(chunks: &[Chunk], size: u64, place: u64) -> usize
    requires ordered { LieInOrder 0 (all_parts chunks.now) size }
    ensures within { result ≤ length chunks.now }
    ensures before { (k : ℕ) → k < result → last_end 0 (chunk_at chunks.now k) ≤ place }
    ensures at { result < length chunks.now → place < last_end 0 (chunk_at chunks.now result) }
{
    let likely = likely_chunk(chunks, place);
    if is_first_behind(chunks, size, likely, place) {
        return likely;
    }
    first_behind(chunks, place)
}

/// The spot of a part that is free; `None` exactly where it is not free.
pub fn free_spot(chunks: &[Chunk], size: u64, place: u64, bytes: u32) -> Option<ExtentSpot>
    requires ordered { LieInOrder 0 (all_parts chunks.now) size }
    requires chunks { 0 < length chunks.now }
    requires some { 1 ≤ bytes }
    ensures fits { IfSome result (λ spot. FitsAt chunks.now size spot.chunk spot.index (part_at place bytes)) }
    ensures none { IfNone result (IsFree (all_parts chunks.now) size (part_at place bytes) → ⊥) }
{
    let chunk = chunk_of(chunks, size, place);
    if chunk < chunks.len() {
        return match hole_at(chunks[chunk].parts(), size, place, bytes) {
            Some(index) => Some(ExtentSpot { chunk, index }),
            None => None,
        };
    }
    if !fits(place, bytes, size) {
        return None;
    }
    Some(end_spot(chunks))
}

/// The spot of a part.
pub fn spot_of(chunks: &[Chunk], size: u64, part: Extent) -> ExtentSpot
    requires ordered { LieInOrder 0 (all_parts chunks.now) size }
    requires known { Contains (all_parts chunks.now) part }
    ensures known { result.chunk < length chunks.now }
    ensures within { result.index < length (chunk_at chunks.now result.chunk) }
    ensures at { slice_index_or (chunk_at chunks.now result.chunk) result.index part ≡ part }
{
    let chunk = chunk_of(chunks, size, part.place);
    ExtentSpot {
        chunk,
        index: index_of(chunks[chunk].parts(), part),
    }
}

/// Whether a chunk fits into one with the chunk behind it; not so where there is none behind it.
fn is_loose(chunks: &[Chunk], chunk: usize) -> bool
    requires known { chunk < length chunks.now }
    ensures behind { IsTrue result → chunk + 1 < length chunks.now }
    ensures fits { IsTrue result → length (chunk_at chunks.now chunk) + length (chunk_at chunks.now (suc chunk)) ≤ chunk_room }
    ensures crowded { IsFalse result → chunk + 1 < length chunks.now → chunk_room < length (chunk_at chunks.now chunk) + length (chunk_at chunks.now (suc chunk)) }
{
    if chunks.len() - chunk == 1 {
        return false;
    }
    chunks[chunk].len() + chunks[chunk + 1].len() <= ROOM
}

/// The number of a chunk that fits into one with the chunk behind it.
pub fn loose_pair(chunks: &[Chunk]) -> Option<usize>
    ensures known { IfSome result (λ k. k + 1 < length chunks.now) }
    ensures fits { IfSome result (λ k. length (chunk_at chunks.now k) + length (chunk_at chunks.now (suc k)) ≤ chunk_room) }
    ensures none { IfNone result (AreCrowded chunks.now) }
{
    let mut chunk = chunks.len();
    while chunk > 0 {
        chunk -= 1;
        if is_loose(chunks, chunk) {
            return Some(chunk);
        }
    }
    None
}
