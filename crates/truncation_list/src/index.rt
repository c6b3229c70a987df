//! An index of cuts: in which slots the cuts of a layer, a grid and a zoom lie.
ghost use Rattle.std.specs.List.{All, HoldsAt};
ghost use Rattle.std.specs.Prelude.{MatchOption, IfOk, IsTrue, OnOk, ℕ, [], false, length, take, ◌++◌, ◌∷◌, ◌<◌, ◌≡◌, if◌then◌else◌};
ghost use Rattle.truncation_list.specs.Index.{HasRoom, capacity, is_of, listed, slots_in, stands};
ghost use Rattle.truncation_list.specs.Slots.{taken, without};

use crate::book::Cut;
use crate::cover::Cover;
use crate::lists::{first_list, grow, keep_each, last_list, push_slot, reserve_each, take_from};
use slab::Slab;
use std::alloc::{AllocError, Global};

/// The lists of a layer and a grid by zoom. Each has the slots of its cuts by number, the least first.
#[derive(Drop)]
pub struct Shelf {
    pub layer: u32,
    pub grid: u32,
    pub lists: Vec<Vec<u32>>,
}

/// The shelves, at most one for each layer and grid.
#[derive(Drop)]
pub struct Index {
    pub shelves: Vec<Shelf>,
}

/// The place of the shelf of this layer and grid, `None` where there is none.
fn find(shelves: &[Shelf], layer: u32, grid: u32) -> Option<usize>
    ensures { MatchOption result (All (λ shelf. is_of layer grid shelf ≡ false) shelves.now) (λ s. (s < length shelves.now) × All (λ shelf. is_of layer grid shelf ≡ false) (take s shelves.now) × HoldsAt (λ shelf. IsTrue (is_of layer grid shelf)) shelves.now s) }
{
    'finding: for s in 0..shelves.len() {
        let shelf = &shelves[s];
        if shelf.layer == layer && shelf.grid == grid {
            return Some(s);
        }
    }
    None
}

impl Index {
    /// An index of no cut.
    pub fn new(alloc: Global) -> Index
        ensures { (layer grid k : ℕ) → listed result.shelves.items layer grid k ≡ [] }
    {
        Index {
            shelves: Vec::new(alloc),
        }
    }

    /// The lists of a layer and grid.
    pub fn lists(&self, layer: u32, grid: u32) -> &[Vec<u32>]
        ensures { (k : ℕ) → slots_in result.now k ≡ listed self.now.shelves.items layer grid k }
    {
        match find(&self.shelves, layer, grid) {
            None => &[],
            Some(s) => &self.shelves[s].lists,
        }
    }

    /// The place of the shelf of this layer and grid, which is made where it is missing.
    fn shelf_of(&mut self, alloc: Global, layer: u32, grid: u32) -> Result<usize, AllocError>
        ensures listed { (layer grid k : ℕ) → listed self.new.shelves.items layer grid k ≡ listed self.old.shelves.items layer grid k }
        ensures first { IfOk result (λ s. (s < length self.new.shelves.items) × All (λ shelf. is_of layer grid shelf ≡ false) (take s self.new.shelves.items) × HoldsAt (λ shelf. IsTrue (is_of layer grid shelf)) self.new.shelves.items s) }
    {
        match find(&self.shelves, layer, grid) {
            Some(s) => Ok(s),
            None => {
                let s = self.shelves.len();
                self.shelves.push(Shelf {
                    layer,
                    grid,
                    lists: Vec::new(alloc),
                })?;
                Ok(s)
            }
        }
    }

    /// Makes room for one more slot in each list that the cover stands in.
    pub fn reserve(&mut self, alloc: Global, cover: &Cover) -> Result<(), AllocError>
        ensures listed { (layer grid k : ℕ) → listed self.new.shelves.items layer grid k ≡ listed self.old.shelves.items layer grid k }
        ensures room { OnOk result (HasRoom self.new.shelves.items cover.now) }
    {
        let s = self.shelf_of(alloc, cover.layer, cover.grid)?;
        let shelf = &mut self.shelves[s];
        grow(alloc, &mut shelf.lists, last_list(cover))?;
        reserve_each(&mut shelf.lists, first_list(cover), last_list(cover))
    }

    /// Writes a slot to the lists that the cover stands in.
    pub fn stand(&mut self, slot: u32, cover: &Cover)
        requires { HasRoom self.old.shelves.items cover.now }
        ensures listed { (layer grid k : ℕ) → listed self.new.shelves.items layer grid k ≡ (if stands layer grid k cover.now then listed self.old.shelves.items layer grid k ++ slot ∷ [] else listed self.old.shelves.items layer grid k) }
        ensures capacity { (layer grid k : ℕ) → capacity self.new.shelves.items layer grid k ≡ capacity self.old.shelves.items layer grid k }
    {
        match find(&self.shelves, cover.layer, cover.grid) {
            None => return,
            Some(s) => {
                push_slot(
                    &mut self.shelves[s].lists,
                    first_list(cover),
                    last_list(cover),
                    slot,
                )
            }
        }
    }

    /// Takes a slot out of the lists that the cover stands in.
    pub fn leave(&mut self, slot: u32, cover: &Cover)
        ensures listed { (layer grid k : ℕ) → listed self.new.shelves.items layer grid k ≡ (if stands layer grid k cover.now then without slot (listed self.old.shelves.items layer grid k) else listed self.old.shelves.items layer grid k) }
        ensures capacity { (layer grid k : ℕ) → capacity self.new.shelves.items layer grid k ≡ capacity self.old.shelves.items layer grid k }
    {
        match find(&self.shelves, cover.layer, cover.grid) {
            None => return,
            Some(s) => {
                take_from(
                    &mut self.shelves[s].lists,
                    first_list(cover),
                    last_list(cover),
                    slot,
                )
            }
        }
    }

    /// Takes the slots that have no cut out of each list.
    pub fn keep(&mut self, slots: &Slab<Cut>)
        ensures listed { (layer grid k : ℕ) → listed self.new.shelves.items layer grid k ≡ taken slots.now (listed self.old.shelves.items layer grid k) }
        ensures capacity { (layer grid k : ℕ) → capacity self.new.shelves.items layer grid k ≡ capacity self.old.shelves.items layer grid k }
    {
        'keeping: for s in 0..self.shelves.len() {
            keep_each(&mut self.shelves[s].lists, slots);
        }
    }
}
