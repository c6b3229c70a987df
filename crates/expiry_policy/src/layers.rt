//! The uses of all layers, each at the place of its number.
ghost use Rattle.std.specs.Prelude.{IfOk, IsSome, OnOk, Some, if◌then◌else◌, slice_get, ℕ, ◌+◌, ◌≡◌, ◌≤◌, ◌⊎◌};
ghost use Rattle.expiry_policy.specs.Layers.{AreBare, MayGrow, OfLayer, use_in};
ghost use Rattle.metatile_plan.specs.Keys.{same_meta};
ghost use Rattle.metatile_plan.specs.declared.metatile.MetaKey.{MetaKey};

use crate::layer::LayerUses;
use crate::uses::Use;
use catalog::Policy;
use std::alloc::{AllocError, Global};

/// No uses yet of so many layers. `AllocError` where memory runs out.
pub fn no_uses(alloc: Global, policy: Policy, layers: u32) -> Result<Vec<LayerUses>, AllocError>
    ensures { IfOk result (λ made. AreBare policy layers made.items) }
{
    let mut made = Vec::new(alloc);
    'making: for number in 0..layers {
        made.push(LayerUses::new(alloc, policy, number))?;
    }
    Ok(made)
}

/// Makes room for so many keys more of each layer. `AllocError` where memory runs out; no room is lost then.
pub fn reserve_each(layers: &mut [LayerUses], keys: usize) -> Result<(), AllocError>
    ensures grown { (i : ℕ) → MayGrow (slice_get layers.old i) (slice_get layers.new i) }
    ensures room { OnOk result ((i : ℕ) (l : OfLayer) → slice_get layers.new i ≡ Some l → keys ≤ l.spare) }
{
    'reserving: for layer in layers {
        layer.reserve(keys)?;
    }
    Ok(())
}

/// Enters or changes the use of a metatile of a layer that has room for at least so many keys more, and answers for how many of
/// these there is room then: fewer only where the layer has no more room than that.
pub fn put_in(layer: &mut LayerUses, entry: &Use, room: u32) -> u32
    requires layer { entry.now.meta.theme.layer ≡ layer.old.number }
    requires known { room ≤ layer.old.spare }
    requires room { (1 ≤ room) ⊎ IsSome (use_in layer.old.uses entry.now.meta) }
    ensures number { layer.new.number ≡ layer.old.number }
    ensures policy { layer.new.policy ≡ layer.old.policy }
    ensures uses { (m : MetaKey) → use_in layer.new.uses m ≡ (if same_meta m entry.now.meta then Some entry.now else use_in layer.old.uses m) }
    ensures left { result ≤ layer.new.spare }
    ensures most { result ≤ room }
    ensures spare { room ≤ result + 1 }
    ensures kept { IsSome (use_in layer.old.uses entry.now.meta) → room ≤ result }
{
    let was_held = layer.put(entry);
    if was_held {
        return room;
    }
    if layer.room() < room as usize {
        return room - 1;
    }
    room
}
