//! The taken parts of a space: how parts are taken, claimed and given back.
ghost use Rattle.std.specs.Prelude.{◌≡◌, ◌+◌, ◌^◌, ◌<◌, ◌≤◌, [], ◌↔◌, Contains, IfSome, IfNone, IfOk, IsOk, OnOk, OnErr, IsTrue, IsFalse};
ghost use Rattle.extent_map.specs.Parts.{part_at};

use crate::chunk::{Chunk, ROOM};
use crate::chunks::{first_of, free_spot, lowest_hole, spot_of};
use crate::edits::{enter, grow, leave, prepare, refresh};
use crate::part::Extent;
use std::alloc::{AllocError, Global};
use std::marker::Model;

/// How many parts there will be room for in all, where so many are to be taken beside those that are.
fn room_for(taken: usize, parts: u32) -> Result<usize, AllocError>
    ensures { IfOk result (λ room. (room ≡ taken + parts) × (room < 2 ^ 62)) }
{
    let parts = parts as usize;
    if taken >= (1 << 62) - parts {
        return Err(AllocError);
    }
    Ok(taken + parts)
}

/// A space of bytes, of which parts are taken. Contracts see the taken parts in order of place, the size of the space and
/// how many parts can be taken with no more memory.
///
/// As long as no two chunks side by side fit into one, the chunks hold on the average more than half of what they have
/// room for. So half of that room can be promised, however the parts come to lie.
#[derive(Drop)]
pub struct Extents {
    chunks: Vec<Chunk>,
    size: u64,
    /// How many parts are taken.
    taken: usize,
    /// How many parts can be taken in all with no more memory.
    room: usize,
    /// How many chunks there are, counted from the first, beyond which none has a part: the searches go through these alone.
    used: usize,
}

impl Model for Extents {
    ghost use Rattle.std.specs.Prelude.{◌-◌};
    ghost use Rattle.extent_map.specs.Spaces.{Space};

    ghost Value = { Space };

    ghost use Rattle.extent_map.specs.Chunks.{all_parts};
    ghost use Rattle.extent_map.specs.Kept.{IsKept};

    ghost view = { λ e. record { parts = all_parts e.chunks.items; size = e.size; spare = e.room - e.taken } };

    ghost invariant = { λ e. IsKept e.chunks.items e.size e.taken e.room e.used };
}

impl Extents {
    ghost use Rattle.extent_map.specs.Spaces.{IsFree, IsSound, IsTaken, NoneFree, NoneFreeBelow};

    /// A space of so many bytes, of which nothing is taken. `AllocError` where memory runs out.
    pub fn new(alloc: Global, size: u64) -> Result<Extents, AllocError>
        ensures parts { IfOk result (λ e. e.parts ≡ []) }
        ensures size { IfOk result (λ e. e.size ≡ size) }
    {
        Ok(Extents {
            chunks: Vec::new(alloc),
            size,
            taken: 0,
            room: 0,
            used: 1,
        })
    }

    /// How many parts can be taken with no more memory.
    pub fn spare(&self) -> usize
        ensures spare { result ≡ self.now.spare }
        ensures sound { IsSound self.now }
    {
        self.room - self.taken
    }

    /// Gets the memory for so many parts to be taken. `AllocError` where memory runs out; all is then as before.
    pub fn reserve(&mut self, alloc: Global, parts: u32) -> Result<(), AllocError>
        ensures spare { OnOk result (parts ≤ self.new.spare) }
        ensures enough { parts ≤ self.old.spare → IsOk result }
        ensures no_less { self.old.spare ≤ self.new.spare }
        ensures same_parts { self.new.parts ≡ self.old.parts }
        ensures same_size { self.new.size ≡ self.old.size }
        ensures err { OnErr result (self.new ≡ self.old) }
    {
        if parts as usize <= self.room - self.taken {
            return Ok(());
        }
        let room = room_for(self.taken, parts)?;
        grow(&mut self.chunks, alloc, 2 * (room / ROOM + 1))?;
        self.room = room;
        Ok(())
    }

    /// Takes a part of so many bytes at the lowest place where they are free; `None` exactly where they are free nowhere.
    pub fn take(&mut self, length: u32) -> Option<u64>
        requires some { 1 ≤ length }
        requires spare { 0 < self.old.spare }
        ensures free { IfSome result (λ place. IsFree self.old.parts self.old.size (part_at place length)) }
        ensures lowest { IfSome result (λ place. NoneFreeBelow self.old.parts self.old.size length place) }
        ensures taken { IfSome result (λ place. IsTaken self.old (part_at place length) self.new) }
        ensures none { IfNone result (NoneFree self.old.parts self.old.size length) }
        ensures unchanged { IfNone result (self.new ≡ self.old) }
        ensures sound { IsSound self.new }
    {
        refresh(&mut self.chunks, self.size, self.used, length);
        self.used = prepare(&mut self.chunks, self.size, self.used);
        let first = first_of(self.chunks.as_slice(), self.used);
        let found = lowest_hole(first, self.size, length)?;
        let place = found.place;
        self.used = enter(
            &mut self.chunks,
            self.size,
            self.used,
            found.spot,
            Extent { place, length },
        );
        self.taken += 1;
        Some(place)
    }

    /// The lowest place where so many bytes are free, which is the one that `take` would give; `None` exactly where they are free
    /// nowhere.
    pub fn lowest(&self, length: u32) -> Option<u64>
        requires some { 1 ≤ length }
        requires spare { 0 < self.now.spare }
        ensures free { IfSome result (λ place. IsFree self.now.parts self.now.size (part_at place length)) }
        ensures lowest { IfSome result (λ place. NoneFreeBelow self.now.parts self.now.size length place) }
        ensures none { IfNone result (NoneFree self.now.parts self.now.size length) }
    {
        let first = first_of(self.chunks.as_slice(), self.used);
        match lowest_hole(first, self.size, length) {
            None => None,
            Some(found) => Some(found.place),
        }
    }

    /// Gives a part back that is taken just so.
    pub fn give(&mut self, place: u64, length: u32)
        requires taken { Contains self.old.parts (part_at place length) }
        ensures given { IsTaken self.new (part_at place length) self.old }
        ensures sound { IsSound self.new }
    {
        let first = first_of(self.chunks.as_slice(), self.used);
        let spot = spot_of(first, self.size, Extent { place, length });
        leave(&mut self.chunks, self.size, spot);
        self.taken -= 1;
    }

    /// Takes the part of so many bytes at a place, and tells whether it was free.
    pub fn claim_at(&mut self, place: u64, length: u32) -> bool
        requires some { 1 ≤ length }
        requires spare { 0 < self.old.spare }
        ensures free { IsTrue result ↔ IsFree self.old.parts self.old.size (part_at place length) }
        ensures taken { IsTrue result → IsTaken self.old (part_at place length) self.new }
        ensures unchanged { IsFalse result → self.new ≡ self.old }
        ensures sound { IsSound self.new }
    {
        self.used = prepare(&mut self.chunks, self.size, self.used);
        let first = first_of(self.chunks.as_slice(), self.used);
        match free_spot(first, self.size, place, length) {
            Some(spot) => {
                let part = Extent { place, length };
                self.used = enter(&mut self.chunks, self.size, self.used, spot, part);
                self.taken += 1;
                true
            }
            None => false,
        }
    }
}
