//! The kept metatiles by area: how they are put, leave and are found.
ghost use Rattle.std.specs.Prelude.{[], Bool, IfNone, IfOk, IfSome, IsSome, IsTrue, None, OnOk, Some, false, if◌then◌else◌, ℕ, ◌+◌, ◌<◌, ◌^◌, ◌≡◌, ◌≤◌};
ghost use Rattle.catalog.specs.Valid.{IsGrid};
ghost use Rattle.metatile_locks.specs.Running.{IsPlanOn, hits_in};
ghost use Rattle.metatile_plan.specs.Keys.{same_meta};
ghost use Rattle.metatile_plan.specs.declared.metatile.MetaKey.{MetaKey};
ghost use Rattle.truncation_list.specs.Covers.{IsWithinReach};

use crate::area::{Area, ROOM};
use crate::chunks::{enter, grow, prepare, take_out};
use crate::looking::{first_of, place_of};
use crate::spot::{Hit, KeptSpot};
use crate::walk::{hit_among, least_among};
use catalog::Grid;
use metatile_plan::{Factors, MetaKey};
use std::alloc::{AllocError, Global};
use std::marker::Model;
use truncation_list::Cover;

/// How many metatiles there will be room for in all, where so many are to be kept beside those that are.
fn room_for(taken: usize, metatiles: usize) -> Result<usize, AllocError>
    ensures { IfOk result (λ room. (room ≡ taken + metatiles) × (room < 2 ^ 62)) }
{
    if metatiles >= 1 << 61 || taken >= 1 << 61 {
        return Err(AllocError);
    }
    Ok(taken + metatiles)
}

/// How often a metatile wasn't where it was looked for first, with one search more.
fn strays_with(strays: u64, is_stray: bool) -> u64 {
    if is_stray {
        strays.saturating_add(1)
    } else {
        strays
    }
}

/// The kept metatiles, each with a number. Contracts see them by chunks, and how many more can be put with no more memory.
///
/// As long as no two chunks side by side fit into one, the chunks hold on the average more than half of what they have
/// room for. So half of that room can be promised, however the keys come to lie.
#[derive(Drop)]
pub struct KeptAreas {
    alloc: Global,
    chunks: Vec<Area>,
    /// How many metatiles are kept.
    taken: usize,
    /// How many can be kept in all with no more memory.
    room: usize,
    /// How many chunks there are, counted from the first, beyond which none has a key: the searches go through these alone.
    used: usize,
    /// How often a metatile wasn't where it was looked for first.
    strays: u64,
}

impl Model for KeptAreas {
    ghost use Rattle.std.specs.Prelude.{◌-◌};
    ghost use Rattle.kept_areas.specs.Areas.{Areas};
    ghost use Rattle.kept_areas.specs.Kept.{IsKept};

    ghost Value = { Areas };

    ghost view = { λ a. record { chunks = a.chunks.items; spare = a.room - a.taken } };

    ghost invariant = { λ a. IsKept a.chunks.items a.taken a.room a.used };
}

impl KeptAreas {
    ghost use Rattle.kept_areas.specs.Areas.{AreOnce, IsClear, all_spots, least_in, number_at, without};

    /// Areas in which no metatile is.
    pub fn new(alloc: Global) -> KeptAreas
        ensures spots { all_spots result.chunks ≡ [] }
        ensures numbers { (m : MetaKey) → number_at result m ≡ None }
    {
        KeptAreas {
            alloc,
            chunks: Vec::new(alloc),
            taken: 0,
            room: 0,
            used: 1,
            strays: 0,
        }
    }

    /// Makes room for so many more. `AllocError` where memory runs out; what is kept is then as before, and no room is lost.
    pub fn reserve(&mut self, metatiles: usize) -> Result<(), AllocError>
        ensures spots { all_spots self.new.chunks ≡ all_spots self.old.chunks }
        ensures numbers { (m : MetaKey) → number_at self.new m ≡ number_at self.old m }
        ensures no_less { self.old.spare ≤ self.new.spare }
        ensures spare { OnOk result (metatiles ≤ self.new.spare) }
    {
        if metatiles <= self.room - self.taken {
            return Ok(());
        }
        let room = room_for(self.taken, metatiles)?;
        grow(&mut self.chunks, self.alloc, 2 * (room / ROOM + 1))?;
        self.room = room;
        Ok(())
    }

    /// Gives a metatile that isn't kept a number. It takes no memory.
    pub fn enter(&mut self, meta: &MetaKey, number: u64)
        requires room { 1 ≤ self.old.spare }
        requires fresh { number_at self.old meta.now ≡ None }
        ensures numbers { (m : MetaKey) → number_at self.new m ≡ (if same_meta m meta.now then Some number else number_at self.old m) }
        ensures spare { self.old.spare ≤ self.new.spare + 1 }
    {
        self.used = prepare(&mut self.chunks, self.used);
        self.used = enter(
            &mut self.chunks,
            self.used,
            &KeptSpot {
                meta: *meta,
                number,
            },
        );
        self.taken += 1;
    }

    /// Gives a metatile a number, in the place of an older one if it has one. It takes no memory. Where it isn't kept, which
    /// has to be found out first, `enter` is the quicker call.
    pub fn put(&mut self, meta: &MetaKey, number: u64)
        requires { 1 ≤ self.old.spare }
        ensures numbers { (m : MetaKey) → number_at self.new m ≡ (if same_meta m meta.now then Some number else number_at self.old m) }
        ensures spare { self.old.spare ≤ self.new.spare + 1 }
    {
        self.leave(meta);
        self.enter(meta, number);
    }

    /// Takes a metatile out, where it is kept. Each of the others stays in its chunk.
    pub fn leave(&mut self, meta: &MetaKey)
        ensures chunks { self.new.chunks ≡ without meta.now self.old.chunks }
        ensures numbers { (m : MetaKey) → number_at self.new m ≡ (if same_meta m meta.now then None else number_at self.old m) }
        ensures clear { (is_hit : MetaKey → Bool) (count : ℕ) → IsClear is_hit count self.old.chunks → IsClear is_hit count self.new.chunks }
        ensures spare { self.old.spare ≤ self.new.spare }
    {
        let first = first_of(self.chunks.as_slice(), self.used);
        match place_of(first, meta) {
            None => {}
            Some(place) => {
                take_out(&mut self.chunks, place);
                self.taken -= 1;
                self.strays = strays_with(self.strays, place.is_stray);
            }
        }
    }

    /// The least of the kept numbers and of one that was found before.
    pub fn least_with(&self, was: Option<u64>) -> Option<u64>
        ensures least { result ≡ least_in was (all_spots self.now.chunks) }
        ensures once { AreOnce (all_spots self.now.chunks) }
    {
        least_among(first_of(self.chunks.as_slice(), self.used), was)
    }

    /// A metatile that a cover hits, the first in the chunks from one on; `None` exactly where none of these is hit. The factors
    /// and the grid are those of the cover's layer and grid.
    pub fn hit_from(&self, f: &Factors, grid: &Grid, cover: &Cover, from: usize) -> Option<Hit>
        requires grid { IsGrid grid.now }
        requires plan { IsPlanOn f.now grid.now }
        requires reach { IsWithinReach cover.now }
        ensures hit { IfSome result (λ hit. IsTrue (hits_in f.now grid.now cover.now hit.meta)) }
        ensures kept { IfSome result (λ hit. IsSome (number_at self.now hit.meta)) }
        ensures behind { IfSome result (λ hit. from ≤ hit.at) }
        ensures clear { IfSome result (λ hit. IsClear (hits_in f.now grid.now cover.now) from self.now.chunks → IsClear (hits_in f.now grid.now cover.now) hit.at self.now.chunks) }
        ensures none { IfNone result (IsClear (hits_in f.now grid.now cover.now) from self.now.chunks → (m : MetaKey) → IsSome (number_at self.now m) → hits_in f.now grid.now cover.now m ≡ false) }
    {
        let first = first_of(self.chunks.as_slice(), self.used);
        hit_among(first, f, grid, cover, from)
    }

    /// How often a metatile was not where it was looked for first.
    pub fn strays(&self) -> u64 {
        self.strays
    }
}
