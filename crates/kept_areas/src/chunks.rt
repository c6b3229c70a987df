//! Changes of the chunks. None of them takes memory, but for `grow`.
ghost use Rattle.std.specs.Prelude.{IfNone, IfSome, IsFalse, IsTrue, OnOk, [], insert, length, remove, slice_set, suc, vec_capacity, vec_len, ℕ, ◌*◌, ◌+◌, ◌-◌, ◌++◌, ◌/◌, ◌<◌, ◌≡◌, ◌≤◌, ◌∷◌};
ghost use Rattle.kept_areas.specs.Areas.{all_spots};
ghost use Rattle.kept_areas.specs.Kept.{AreCrowded, IsEntered, IsUsed, chunk_at, chunk_room};

use crate::area::{Area, ROOM};
use crate::looking::{Place, chunk_for, first_of};
use crate::order::place_in;
use crate::spot::KeptSpot;
use metatile_plan::MetaKey;
use std::alloc::{AllocError, Global};

/// Makes chunks with no key behind the others, until there are so many. `AllocError` where memory runs out.
pub fn grow(chunks: &mut Vec<Area>, alloc: Global, count: usize) -> Result<(), AllocError>
    ensures spots { all_spots chunks.new.items ≡ all_spots chunks.old.items }
    ensures more { length chunks.old.items ≤ length chunks.new.items }
    ensures enough { OnOk result (count ≤ length chunks.new.items) }
    ensures first { (used : ℕ) → IsUsed chunks.old.items used → IsUsed chunks.new.items used }
{
    'growing: for _count in chunks.len()..count {
        let chunk = Area::new(alloc)?;
        chunks.push(chunk)?;
    }
    Ok(())
}

/// Puts a chunk before the one at an index, with no memory taken.
fn stand(chunks: &mut Vec<Area>, index: usize, chunk: Area)
    requires room { vec_len chunks.old < vec_capacity chunks.old }
    requires within { index ≤ vec_len chunks.old }
    ensures { chunks.new.items ≡ insert chunks.old.items index chunk }
{
    let _ = chunks.insert(index, chunk);
}

/// Puts a chunk behind all others, with no memory taken.
fn stand_behind(chunks: &mut Vec<Area>, chunk: Area)
    requires { vec_len chunks.old < vec_capacity chunks.old }
    ensures { chunks.new.items ≡ chunks.old.items ++ chunk ∷ [] }
{
    let _ = chunks.push(chunk);
}

/// Whether a chunk fits into one with the chunk behind it; not so where there is none behind it.
fn is_loose(chunks: &[Area], chunk: usize) -> bool
    requires known { chunk < length chunks.now }
    ensures behind { IsTrue result → chunk + 1 < length chunks.now }
    ensures fits { IsTrue result → length (chunk_at chunks.now chunk) + length (chunk_at chunks.now (suc chunk)) ≤ chunk_room }
    ensures crowded { IsFalse result → chunk + 1 < length chunks.now → chunk_room < length (chunk_at chunks.now chunk) + length (chunk_at chunks.now (suc chunk)) }
{
    if chunks.len() - chunk == 1 {
        return false;
    }
    chunks[chunk].len() + chunks[chunk + 1].len() <= ROOM
}

/// The number of a chunk that fits into one with the chunk behind it.
fn loose_pair(chunks: &[Area]) -> Option<usize>
    ensures known { IfSome result (λ k. k + 1 < length chunks.now) }
    ensures fits { IfSome result (λ k. length (chunk_at chunks.now k) + length (chunk_at chunks.now (suc k)) ≤ chunk_room) }
    ensures none { IfNone result (AreCrowded chunks.now) }
{
    let mut chunk = chunks.len();
    while chunk > 0 {
        chunk -= 1;
        if is_loose(chunks, chunk) {
            return Some(chunk);
        }
    }
    None
}

/// Puts the keys of the next chunk behind those of a chunk, and that next chunk, now free, behind all others.
fn merge(chunks: &mut Vec<Area>, chunk: usize)
    requires known { chunk + 1 < length chunks.old.items }
    requires room { length (chunk_at chunks.old.items chunk) + length (chunk_at chunks.old.items (suc chunk)) ≤ chunk_room }
    ensures spots { all_spots chunks.new.items ≡ all_spots chunks.old.items }
    ensures len { length chunks.new.items ≡ length chunks.old.items }
    ensures first { IsUsed chunks.new.items (length chunks.old.items - 1) }
{
    let mut gone = chunks.remove(chunk + 1);
    chunks[chunk].append(gone.spots());
    gone.truncate(0);
    gone.set_aside();
    stand_behind(chunks, gone);
}

/// Sees to it that the last chunk has no key, where the first so many are all that may have one, and tells how many these are then.
pub fn prepare(chunks: &mut Vec<Area>, used: usize) -> usize
    requires first { IsUsed chunks.old.items used }
    requires spare { length (all_spots chunks.old.items) < length chunks.old.items / 2 * chunk_room }
    ensures spots { all_spots chunks.new.items ≡ all_spots chunks.old.items }
    ensures len { length chunks.new.items ≡ length chunks.old.items }
    ensures first { IsUsed chunks.new.items result }
    ensures free { result < length chunks.new.items }
{
    if used < chunks.len() {
        return used;
    }
    match loose_pair(chunks.as_slice()) {
        Some(chunk) => {
            merge(chunks, chunk);
            chunks.len() - 1
        }
        None => used,
    }
}

/// Moves the keys of a chunk from an index on to the last chunk, which has none, and puts that one behind it, for the keys from
/// one on.
fn divide(chunks: &mut Vec<Area>, used: usize, chunk: usize, kept: usize, first: &MetaKey)
    requires first { IsUsed chunks.old.items used }
    requires free { used < length chunks.old.items }
    requires known { chunk < used }
    requires most { length (chunk_at chunks.old.items chunk) ≤ chunk_room }
    requires within { kept ≤ length (chunk_at chunks.old.items chunk) }
    ensures spots { all_spots chunks.new.items ≡ all_spots chunks.old.items }
    ensures len { length chunks.new.items ≡ length chunks.old.items }
    ensures known { chunk + 1 < length chunks.new.items }
    ensures left { length (chunk_at chunks.new.items chunk) ≡ kept }
    ensures right { length (chunk_at chunks.new.items (chunk + 1)) + kept ≡ length (chunk_at chunks.old.items chunk) }
    ensures first { IsUsed chunks.new.items (used + 1) }
{
    let mut fresh = chunks.pop().unwrap();
    fresh.begin_at(first);
    let (_, behind) = chunks[chunk].spots().split_at(kept);
    fresh.append(behind);
    chunks[chunk].truncate(kept);
    stand(chunks, chunk + 1, fresh);
}

/// Divides a full chunk so that a key has room in it or behind it, and tells in which chunk: half of the keys move, and none
/// where the key comes behind them all.
fn make_room(chunks: &mut Vec<Area>, used: usize, chunk: usize, meta: &MetaKey) -> usize
    requires first { IsUsed chunks.old.items used }
    requires free { used < length chunks.old.items }
    requires full { length (chunk_at chunks.old.items chunk) ≡ chunk_room }
    requires known { chunk < used }
    ensures spots { all_spots chunks.new.items ≡ all_spots chunks.old.items }
    ensures len { length chunks.new.items ≡ length chunks.old.items }
    ensures known { result < length chunks.new.items }
    ensures room { length (chunk_at chunks.new.items result) < chunk_room }
    ensures first { IsUsed chunks.new.items (used + 1) }
    ensures among { result < used + 1 }
{
    let index = place_in(chunks[chunk].spots(), meta);
    if index == ROOM {
        divide(chunks, used, chunk, ROOM, meta);
        return chunk + 1;
    }
    let first = chunks[chunk].spots()[ROOM / 2].meta;
    divide(chunks, used, chunk, ROOM / 2, &first);
    if index > ROOM / 2 {
        return chunk + 1;
    }
    chunk
}

/// Enters a key in a chunk that has room.
fn put(chunks: &mut Vec<Area>, chunk: usize, spot: &KeptSpot)
    requires known { chunk < length chunks.old.items }
    requires room { length (chunk_at chunks.old.items chunk) < chunk_room }
    ensures entered { IsEntered spot.now (all_spots chunks.old.items) (all_spots chunks.new.items) }
    ensures len { length chunks.new.items ≡ length chunks.old.items }
    ensures first { (used : ℕ) → chunk < used → IsUsed chunks.old.items used → IsUsed chunks.new.items used }
{
    chunks[chunk].enter(spot);
}

/// Enters a key where it is meant to stand among the first so many chunks, which are all that may have keys, and tells how many
/// these are then.
pub fn enter(chunks: &mut Vec<Area>, used: usize, spot: &KeptSpot) -> usize
    requires first { IsUsed chunks.old.items used }
    requires free { used < length chunks.old.items }
    ensures entered { IsEntered spot.now (all_spots chunks.old.items) (all_spots chunks.new.items) }
    ensures len { length chunks.new.items ≡ length chunks.old.items }
    ensures first { IsUsed chunks.new.items result }
{
    let chunk = chunk_for(first_of(chunks.as_slice(), used), &spot.meta);
    if chunks[chunk].len() < ROOM {
        put(chunks, chunk, spot);
        return used;
    }
    let apart = make_room(chunks, used, chunk, &spot.meta);
    put(chunks, apart, spot);
    used + 1
}

/// Takes out the key at a place.
pub fn take_out(chunks: &mut Vec<Area>, place: Place)
    requires known { place.chunk < length chunks.old.items }
    requires within { place.index < length (chunk_at chunks.old.items place.chunk) }
    ensures { chunks.new.items ≡ slice_set chunks.old.items place.chunk (remove (chunk_at chunks.old.items place.chunk) place.index) }
{
    chunks[place.chunk].leave(place.index);
}
