//! The lists of one layer and grid: which of them a cover stands in, and slots written to them and taken out.
ghost use Rattle.std.specs.Prelude.{OnOk, ℕ, [], length, vec_capacity, ◌++◌, ◌∷◌, ◌<◌, ◌≡◌, ◌≤◌, ◌&&◌, nat_le, if◌then◌else◌};
ghost use Rattle.truncation_list.specs.Index.{capacity_in, first_list, last_list, list_of, slots_in};
ghost use Rattle.truncation_list.specs.Slots.{taken, without};

use crate::book::Cut;
use crate::cover::Cover;
use crate::slots::keep_taken;
use slab::Slab;
use std::alloc::{AllocError, Global};

/// The last list, which is for its own zoom and all greater ones.
const LAST_LIST: u32 = 31;

/// The list of a zoom.
pub fn list_of(z: u32) -> usize
    ensures { result ≡ list_of z }
{
    z.min(LAST_LIST) as usize
}

/// The first list that a cover stands in.
///
/// A cover whose last matrix comes before its first one is for no tile. It stands in the lists between the two, so that a
/// cover that contains it meets it there.
pub fn first_list(cover: &Cover) -> usize
    ensures { result ≡ first_list cover.now }
{
    list_of(cover.z_start.min(cover.z_stop))
}

/// The last list that a cover stands in.
pub fn last_list(cover: &Cover) -> usize
    ensures list { result ≡ last_list cover.now }
    ensures bound { result ≤ 31 }
{
    list_of(cover.z_start.max(cover.z_stop))
}

/// The list of this number; it is empty where there is none.
pub fn list_in(lists: &[Vec<u32>], k: usize) -> &[u32]
    ensures { result.now ≡ slots_in lists.now k }
{
    if k < lists.len() { &lists[k] } else { &[] }
}

/// Makes empty lists, so that there is one of this number.
pub fn grow(alloc: Global, lists: &mut Vec<Vec<u32>>, last: usize) -> Result<(), AllocError>
    requires { last ≤ 31 }
    ensures slots { (k : ℕ) → slots_in lists.new.items k ≡ slots_in lists.old.items k }
    ensures long { OnOk result (last < length lists.new.items) }
{
    'growing: for _count in lists.len()..last + 1 {
        lists.push(Vec::new(alloc))?;
    }
    Ok(())
}

/// Makes room for one more slot in each of the lists from the first one to the last one.
pub fn reserve_each(lists: &mut [Vec<u32>], first: usize, last: usize) -> Result<(), AllocError>
    requires { last < length lists.old }
    ensures slots { (k : ℕ) → slots_in lists.new k ≡ slots_in lists.old k }
    ensures room { OnOk result ((k : ℕ) → first ≤ k → k ≤ last → length (slots_in lists.new k) < capacity_in lists.new k) }
{
    'reserving: for k in first..last + 1 {
        lists[k].reserve(1)?;
    }
    Ok(())
}

/// Writes a slot to the end of each of the lists from the first one to the last one.
pub fn push_slot(lists: &mut [Vec<u32>], first: usize, last: usize, slot: u32)
    requires bound { last ≤ 31 }
    requires room { (k : ℕ) → first ≤ k → k ≤ last → length (slots_in lists.old k) < capacity_in lists.old k }
    ensures slots { (k : ℕ) → slots_in lists.new k ≡ (if nat_le first k && nat_le k last then slots_in lists.old k ++ slot ∷ [] else slots_in lists.old k) }
    ensures capacity { (k : ℕ) → capacity_in lists.new k ≡ capacity_in lists.old k }
{
    'pushing: for k in first..last + 1 {
        lists[k].push_reserved(slot);
    }
}

/// Takes a slot out of a list.
fn take_out(list: &mut Vec<u32>, slot: u32)
    ensures items { list.new.items ≡ without slot list.old.items }
    ensures capacity { vec_capacity list.new ≡ vec_capacity list.old }
{
    list.retain(|other| *other != slot);
}

/// Takes a slot out of each of the lists from the first one to the last one.
pub fn take_from(lists: &mut [Vec<u32>], first: usize, last: usize, slot: u32)
    requires { last ≤ 31 }
    ensures slots { (k : ℕ) → slots_in lists.new k ≡ (if nat_le first k && nat_le k last then without slot (slots_in lists.old k) else slots_in lists.old k) }
    ensures capacity { (k : ℕ) → capacity_in lists.new k ≡ capacity_in lists.old k }
{
    let end = lists.len().min(last + 1);
    'taking: for k in first..end {
        take_out(&mut lists[k], slot);
    }
}

/// Takes the slots that have no cut out of each list.
pub fn keep_each(lists: &mut [Vec<u32>], slots: &Slab<Cut>)
    ensures slots { (k : ℕ) → slots_in lists.new k ≡ taken slots.now (slots_in lists.old k) }
    ensures capacity { (k : ℕ) → capacity_in lists.new k ≡ capacity_in lists.old k }
{
    'keeping: for k in 0..lists.len() {
        keep_taken(&mut lists[k], slots);
    }
}

/// Whether the lists from the first one to the last one have more slots in all than `most`.
pub fn exceed(lists: &[Vec<u32>], first: usize, last: usize, most: usize) -> bool
    requires { last ≤ 31 }
{
    let mut left = most;
    'counting: for k in first..last + 1 {
        let count = list_in(lists, k).len();
        if left < count {
            return true;
        }
        left -= count;
    }
    false
}
