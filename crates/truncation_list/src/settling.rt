//! Frees the slots of the cuts that lie within later ones.
ghost use Rattle.std.specs.List.{All};
ghost use Rattle.std.specs.Prelude.{None, if◌then◌else◌, ◌≡◌, ◌≤◌};
ghost use Rattle.slab.specs.Slab.{get, slab_len};
ghost use Rattle.truncation_list.specs.Index.{IsIndexed};
ghost use Rattle.truncation_list.specs.Purge.{is_outdone_among};
ghost use Rattle.truncation_list.specs.Slots.{cut_in, cuts_in};

use crate::book::Cut;
use crate::index::Index;
use crate::looking::is_outdone;
use crate::slots::cut_in;
use slab::Slab;

/// Frees the slots of the cuts that lie within a later one. It goes upwards and looks at later cuts alone, so at none whose slot is
/// free already; the order and the index stay.
pub fn free_outdone(slots: &mut Slab<Cut>, order: &[u32], index: &Index)
    requires { IsIndexed slots.old order.now index.now.shelves.items }
    ensures slots { All (λ slot. get slots.new slot ≡ (if is_outdone_among (cuts_in slots.old order.now) (cut_in slots.old slot) then None else get slots.old slot)) order.now }
    ensures capacity { slots.new.capacity ≡ slots.old.capacity }
    ensures len { slab_len slots.new ≤ slab_len slots.old }
{
    'freeing: for i in 0..order.len() {
        let slot = order[i];
        let cut = *cut_in(slots, slot);
        if is_outdone(order, index, slots, &cut) {
            slots.remove(slot as usize);
        }
    }
}
