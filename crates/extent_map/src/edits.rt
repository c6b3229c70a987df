//! Changes of the chunks. None of them takes memory, but for `grow`.
ghost use Rattle.std.specs.Prelude.{◌≡◌, ◌+◌, ◌*◌, ◌/◌, ◌<◌, ◌≤◌, ◌++◌, ◌∷◌, ◌-◌, [], OnOk, ℕ, insert, length, suc, vec_len, vec_capacity};
ghost use Rattle.extent_map.specs.Chunks.{all_parts, chunk_at, chunk_room, parts_before, parts_behind, FitsAt, IsDivided, IsSpot, IsUsed};
ghost use Rattle.extent_map.specs.Parts.{LieInOrder};

use crate::chunk::{Chunk, ROOM};
use crate::chunks::loose_pair;
use crate::part::{Extent, ExtentSpot};
use std::alloc::{AllocError, Global};

/// Makes chunks with no part behind the others, until there are so many. `AllocError` where memory runs out.
pub fn grow(chunks: &mut Vec<Chunk>, alloc: Global, count: usize) -> Result<(), AllocError>
    ensures parts { all_parts chunks.new.items ≡ all_parts chunks.old.items }
    ensures more { length chunks.old.items ≤ length chunks.new.items }
    ensures enough { OnOk result (count ≤ length chunks.new.items) }
    ensures first { (used : ℕ) → IsUsed chunks.old.items used → IsUsed chunks.new.items used }
{
    'growing: for _count in chunks.len()..count {
        let chunk = Chunk::new(alloc)?;
        chunks.push(chunk)?;
    }
    Ok(())
}

/// Makes anew the summaries of the first so many chunks that say that so many bytes may fit, up to the first of which it is still
/// true. So a search for so many bytes goes through the parts of no other chunk.
pub fn refresh(chunks: &mut Vec<Chunk>, size: u64, used: usize, bytes: u32)
    requires ordered { LieInOrder 0 (all_parts chunks.old.items) size }
    ensures { chunks.new.items ≡ chunks.old.items }
{
    let mut chunk = 0;
    while chunk < chunks.len() {
        if chunk == used {
            return;
        }
        if chunks[chunk].refresh(size, bytes) {
            return;
        }
        chunk += 1;
    }
}

/// Puts a chunk before the one at an index, with no memory taken.
fn stand(chunks: &mut Vec<Chunk>, index: usize, chunk: Chunk)
    requires room { vec_len chunks.old < vec_capacity chunks.old }
    requires within { index ≤ vec_len chunks.old }
    ensures { chunks.new.items ≡ insert chunks.old.items index chunk }
{
    let _ = chunks.insert(index, chunk);
}

/// Puts a chunk behind all others, with no memory taken.
fn stand_behind(chunks: &mut Vec<Chunk>, chunk: Chunk)
    requires { vec_len chunks.old < vec_capacity chunks.old }
    ensures { chunks.new.items ≡ chunks.old.items ++ chunk ∷ [] }
{
    let _ = chunks.push(chunk);
}

/// Puts the parts of the next chunk behind those of a chunk, and that next chunk, now free, behind all others.
fn merge(chunks: &mut Vec<Chunk>, size: u64, chunk: usize)
    requires ordered { LieInOrder 0 (all_parts chunks.old.items) size }
    requires known { chunk + 1 < length chunks.old.items }
    requires room { length (chunk_at chunks.old.items chunk) + length (chunk_at chunks.old.items (suc chunk)) ≤ chunk_room }
    ensures parts { all_parts chunks.new.items ≡ all_parts chunks.old.items }
    ensures len { length chunks.new.items ≡ length chunks.old.items }
    ensures first { IsUsed chunks.new.items (length chunks.old.items - 1) }
{
    let mut gone = chunks.remove(chunk + 1);
    chunks[chunk].append(size, gone.parts());
    gone.truncate(size, 0);
    stand_behind(chunks, gone);
}

/// Sees to it that the last chunk has no part, where the first so many are all that may have one, and tells how many these are then.
pub fn prepare(chunks: &mut Vec<Chunk>, size: u64, used: usize) -> usize
    requires ordered { LieInOrder 0 (all_parts chunks.old.items) size }
    requires first { IsUsed chunks.old.items used }
    requires spare { length (all_parts chunks.old.items) < length chunks.old.items / 2 * chunk_room }
    ensures parts { all_parts chunks.new.items ≡ all_parts chunks.old.items }
    ensures len { length chunks.new.items ≡ length chunks.old.items }
    ensures first { IsUsed chunks.new.items result }
    ensures free { result < length chunks.new.items }
{
    if used < chunks.len() {
        return used;
    }
    match loose_pair(chunks.as_slice()) {
        Some(chunk) => {
            merge(chunks, size, chunk);
            chunks.len() - 1
        }
        None => used,
    }
}

/// How many parts stay in a full chunk where a part is to be entered at an index: half of them, and all before one behind them.
fn kept_of(index: usize) -> usize
    requires { index ≤ chunk_room }
    ensures some { 1 ≤ result }
    ensures most { result ≤ chunk_room }
    ensures left { index ≤ 512 → result ≡ 512 }
    ensures right { 512 < index → result ≤ index }
{
    if index == ROOM { ROOM } else { ROOM / 2 }
}

/// Moves the parts of a chunk from an index on to the last chunk, which has none, and puts that one behind it.
fn divide(chunks: &mut Vec<Chunk>, size: u64, used: usize, chunk: usize, kept: usize)
    requires ordered { LieInOrder 0 (all_parts chunks.old.items) size }
    requires first { IsUsed chunks.old.items used }
    requires free { used < length chunks.old.items }
    requires known { chunk < used }
    requires most { length (chunk_at chunks.old.items chunk) ≤ chunk_room }
    requires within { kept ≤ length (chunk_at chunks.old.items chunk) }
    ensures divided { IsDivided chunks.old.items chunk kept chunks.new.items }
    ensures first { IsUsed chunks.new.items (used + 1) }
{
    let mut fresh = chunks.pop().unwrap();
    let (_, behind) = chunks[chunk].parts().split_at(kept);
    fresh.append(size, behind);
    chunks[chunk].truncate(size, kept);
    stand(chunks, chunk + 1, fresh);
}

/// Divides a full chunk so that there is room at a spot of it, and tells where that spot is then.
fn make_room(chunks: &mut Vec<Chunk>, size: u64, used: usize, spot: ExtentSpot) -> ExtentSpot
    requires ordered { LieInOrder 0 (all_parts chunks.old.items) size }
    requires first { IsUsed chunks.old.items used }
    requires free { used < length chunks.old.items }
    requires known { spot.chunk < used }
    requires full { length (chunk_at chunks.old.items spot.chunk) ≡ chunk_room }
    requires within { spot.index ≤ chunk_room }
    ensures spot { IsSpot chunks.new.items result.chunk result.index }
    ensures room { length (chunk_at chunks.new.items result.chunk) < chunk_room }
    ensures before { parts_before chunks.new.items result.chunk result.index ≡ parts_before chunks.old.items spot.chunk spot.index }
    ensures behind { parts_behind chunks.new.items result.chunk result.index ≡ parts_behind chunks.old.items spot.chunk spot.index }
    ensures len { length chunks.new.items ≡ length chunks.old.items }
    ensures first { IsUsed chunks.new.items (used + 1) }
    ensures known { result.chunk < used + 1 }
{
    let kept = kept_of(spot.index);
    divide(chunks, size, used, spot.chunk, kept);
    if spot.index <= ROOM / 2 {
        return spot;
    }
    ExtentSpot {
        chunk: spot.chunk + 1,
        index: spot.index - kept,
    }
}

/// Enters a part at a spot of a chunk that has room.
fn put(chunks: &mut Vec<Chunk>, size: u64, spot: ExtentSpot, part: Extent)
    requires fits { FitsAt chunks.old.items size spot.chunk spot.index part }
    requires some { 1 ≤ part.length }
    requires room { length (chunk_at chunks.old.items spot.chunk) < chunk_room }
    ensures parts { all_parts chunks.new.items ≡ parts_before chunks.old.items spot.chunk spot.index ++ part ∷ parts_behind chunks.old.items spot.chunk spot.index }
    ensures len { length chunks.new.items ≡ length chunks.old.items }
    ensures first { (used : ℕ) → spot.chunk < used → IsUsed chunks.old.items used → IsUsed chunks.new.items used }
{
    chunks[spot.chunk].enter(size, spot.index, part);
}

/// Enters a part at a spot of the first so many chunks, which are all that may have parts, and tells how many these are then.
pub fn enter(
    chunks: &mut Vec<Chunk>,
    size: u64,
    used: usize,
    spot: ExtentSpot,
    part: Extent,
) -> usize
    requires fits { FitsAt chunks.old.items size spot.chunk spot.index part }
    requires some { 1 ≤ part.length }
    requires first { IsUsed chunks.old.items used }
    requires free { used < length chunks.old.items }
    requires known { spot.chunk < used }
    ensures parts { all_parts chunks.new.items ≡ parts_before chunks.old.items spot.chunk spot.index ++ part ∷ parts_behind chunks.old.items spot.chunk spot.index }
    ensures len { length chunks.new.items ≡ length chunks.old.items }
    ensures first { IsUsed chunks.new.items result }
{
    if chunks[spot.chunk].len() < ROOM {
        put(chunks, size, spot, part);
        return used;
    }
    let apart = make_room(chunks, size, used, spot);
    put(chunks, size, apart, part);
    used + 1
}

/// Takes out the part at a spot.
pub fn leave(chunks: &mut Vec<Chunk>, size: u64, spot: ExtentSpot)
    requires ordered { LieInOrder 0 (all_parts chunks.old.items) size }
    requires known { spot.chunk < length chunks.old.items }
    requires within { spot.index < length (chunk_at chunks.old.items spot.chunk) }
    ensures parts { all_parts chunks.new.items ≡ parts_before chunks.old.items spot.chunk spot.index ++ parts_behind chunks.old.items spot.chunk (suc spot.index) }
    ensures len { length chunks.new.items ≡ length chunks.old.items }
    ensures first { (used : ℕ) → spot.chunk < used → IsUsed chunks.old.items used → IsUsed chunks.new.items used }
{
    chunks[spot.chunk].leave(size, spot.index);
}
