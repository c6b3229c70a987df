//! A chunk: a short list of parts in memory of its own, with a summary of its holes.
ghost use Rattle.std.specs.Prelude.{◌≡◌, ◌+◌, ◌<◌, ◌≤◌, [], ◌++◌, IfSome, IfNone, IfOk, insert, remove, length, take, vec_len, vec_capacity};
ghost use Rattle.extent_map.specs.Chunks.{chunk_room};
ghost use Rattle.extent_map.specs.Holes.{first_start, last_end, FitsBeforeNone, IsGap};
ghost use Rattle.extent_map.specs.Parts.{LieInOrder};

use crate::gaps::{first_gap, hole_before, larger, summary_of};
use crate::holes::{end_before, start_behind};
use crate::part::{Extent, Hole, Summary};
use std::alloc::{AllocError, Global};
use std::marker::Model;

/// How many parts a chunk has room for.
pub const ROOM: usize = 1024;

/// A chunk. Contracts see its parts.
#[derive(Drop)]
pub struct Chunk {
    parts: Vec<Extent>,
    summary: Summary,
}

impl Model for Chunk {
    ghost use Rattle.std.specs.Prelude.{◌≤◌, List, length, vec_capacity};
    ghost use Rattle.extent_map.specs.declared.part.Extent.{Extent};
    ghost use Rattle.extent_map.specs.Holes.{IsSummed};
    ghost use Rattle.extent_map.specs.Chunks.{chunk_room};

    ghost Value = { List Extent };

    ghost view = { λ c. c.parts.items };

    ghost invariant = { λ c. (chunk_room ≤ vec_capacity c.parts) × (length c.parts.items ≤ chunk_room) × IsSummed c.parts.items c.summary.start c.summary.end c.summary.widest };
}

/// Puts a part before the one at an index, with no memory taken.
fn insert_within(parts: &mut Vec<Extent>, index: usize, part: Extent)
    requires room { vec_len parts.old < vec_capacity parts.old }
    requires within { index ≤ length parts.old.items }
    ensures items { parts.new.items ≡ insert parts.old.items index part }
    ensures capacity { vec_capacity parts.old ≤ vec_capacity parts.new }
{
    let _ = parts.insert(index, part);
}

impl Chunk {
    /// A chunk with no part. `AllocError` where memory runs out.
    pub fn new(alloc: Global) -> Result<Chunk, AllocError>
        ensures { IfOk result (λ c. c ≡ []) }
    {
        let parts = Vec::with_capacity(alloc, ROOM)?;
        Ok(Chunk {
            parts,
            summary: Summary {
                start: 0,
                end: 0,
                widest: 0,
            },
        })
    }

    /// Its parts.
    pub fn parts(&self) -> &[Extent]
        ensures { result.now ≡ self.now }
    {
        self.parts.as_slice()
    }

    /// How many parts it has.
    pub fn len(&self) -> usize
        ensures len { result ≡ length self.now }
        ensures most { length self.now ≤ chunk_room }
    {
        self.parts.as_slice().len()
    }

    /// Where its first part starts; 0 without one.
    pub fn start(&self) -> u64
        ensures { result ≡ first_start self.now 0 }
    {
        self.summary.start
    }

    /// Where its last part ends; 0 without one.
    pub fn end(&self) -> u64
        ensures { result ≡ last_end 0 self.now }
    {
        self.summary.end
    }

    /// The first hole between two of its parts in which so many bytes fit.
    pub fn gap(&self, size: u64, bytes: u32) -> Option<Hole>
        requires ordered { LieInOrder 0 self.now size }
        requires some { 1 ≤ bytes }
        ensures gap { IfSome result (λ hole. IsGap self.now hole.index hole.place bytes) }
        ensures none { IfNone result (FitsBeforeNone bytes (first_start self.now 0) self.now) }
    {
        if self.summary.widest < u64::from(bytes) {
            return None;
        }
        first_gap(self.parts.as_slice(), size, bytes)
    }

    /// Enters a part before the one at an index.
    pub fn enter(&mut self, size: u64, index: usize, part: Extent)
        requires within { index ≤ length self.old }
        requires room { length self.old < chunk_room }
        requires ordered { LieInOrder 0 (insert self.old index part) size }
        ensures { self.new ≡ insert self.old index part }
    {
        insert_within(&mut self.parts, index, part);
        let all = self.parts.as_slice();
        // No hole between two of them is new but the two beside the part.
        let before = hole_before(all, size, index);
        let behind = hole_before(all, size, index + 1);
        self.summary = Summary {
            start: start_behind(all, 0, 0),
            end: end_before(all, size, all.len()),
            widest: larger(self.summary.widest, larger(before, behind)),
        };
    }

    /// Whether so many bytes may fit in a hole between two of its parts. Where its summary says so, it is made anew: a part that
    /// was entered since may fill that hole.
    pub fn refresh(&mut self, size: u64, bytes: u32) -> bool
        requires ordered { LieInOrder 0 self.old size }
        ensures { self.new ≡ self.old }
    {
        let bytes = u64::from(bytes);
        if self.summary.widest < bytes {
            return false;
        }
        self.summary = summary_of(self.parts.as_slice(), size);
        bytes <= self.summary.widest
    }

    /// Takes out the part at an index.
    pub fn leave(&mut self, size: u64, index: usize)
        requires within { index < length self.old }
        requires ordered { LieInOrder 0 (remove self.old index) size }
        ensures { self.new ≡ remove self.old index }
    {
        self.parts.remove(index);
        let others = self.parts.as_slice();
        // No hole between two of them is new but the one that the part leaves.
        self.summary = Summary {
            start: start_behind(others, 0, 0),
            end: end_before(others, size, others.len()),
            widest: larger(self.summary.widest, hole_before(others, size, index)),
        };
    }

    /// Enters parts behind its own.
    pub fn append(&mut self, size: u64, parts: &[Extent])
        requires room { length self.old + length parts.now ≤ chunk_room }
        requires ordered { LieInOrder 0 (self.old ++ parts.now) size }
        ensures { self.new ≡ self.old ++ parts.now }
    {
        let _ = self.parts.extend_from_slice(parts);
        self.summary = summary_of(self.parts.as_slice(), size);
    }

    /// Keeps the first so many of its parts.
    pub fn truncate(&mut self, size: u64, count: usize)
        requires ordered { LieInOrder 0 (take count self.old) size }
        ensures { self.new ≡ take count self.old }
    {
        self.parts.truncate(count);
        self.summary = summary_of(self.parts.as_slice(), size);
    }
}
