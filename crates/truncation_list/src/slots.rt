//! Cuts in slots.
ghost use Rattle.std.specs.Prelude.{is_some, map, vec_capacity, ◌≡◌};
ghost use Rattle.slab.specs.Slab.{ContainsKey, get};
ghost use Rattle.truncation_list.specs.Slots.{cut_in, staying, taken};

use crate::book::Cut;
use crate::cover::Cover;
use crate::going::stays;
use slab::Slab;

/// The cut in a slot that has one.
pub fn cut_in(slots: &Slab<Cut>, slot: u32) -> &Cut
    requires { ContainsKey slots.now slot }
    ensures { result.now ≡ cut_in slots.now slot }
{
    &slots[slot as usize]
}

/// Whether a slot has a cut.
fn is_taken(slots: &Slab<Cut>, slot: u32) -> bool
    ensures { result ≡ is_some (get slots.now slot) }
{
    slots.contains(slot as usize)
}

/// Takes the slots that have no cut out of a list.
pub fn keep_taken(list: &mut Vec<u32>, slots: &Slab<Cut>)
    ensures slots { list.new.items ≡ taken slots.now list.old.items }
    ensures capacity { vec_capacity list.new ≡ vec_capacity list.old }
{
    list.retain(|slot| is_taken(slots, *slot));
}

/// Frees the slots of the cuts that don't stay by themselves.
pub fn free_going(slots: &mut Slab<Cut>, cover: &Option<Cover>, least: Option<u64>)
    ensures slots { slots.new.slots ≡ map (staying cover.now least) slots.old.slots }
    ensures capacity { slots.new.capacity ≡ slots.old.capacity }
{
    slots.retain(|_slot, cut| stays(cover, least, cut));
}
