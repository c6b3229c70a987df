//! Which metatile goes first among all layers.
ghost use Rattle.std.specs.Option.{option_map};
ghost use Rattle.std.specs.Prelude.{Some, slice_get, true, ℕ, ◌≡◌};
ghost use Rattle.expiry_policy.specs.Layers.{OfLayer, use_among};
ghost use Rattle.expiry_policy.specs.Orders.{IsFirst, sooner, unsaved_key};

use crate::layer::LayerUses;
use crate::order::{Order, precedes};
use crate::uses::Use;
use metatile_plan::MetaKey;

/// The latter where it goes before the former.
fn sooner(order: Order, former: Option<Use>, latter: Option<Use>) -> Option<Use>
    ensures { result ≡ sooner order former latter }
{
    match former {
        None => latter,
        Some(early) => match latter {
            None => Some(early),
            Some(late) => {
                if precedes(order, &late, &early) {
                    return Some(late);
                }
                Some(early)
            }
        },
    }
}

/// The use that goes first among all layers, `None` exactly where nothing is held.
pub fn first_of_all(order: Order, layers: &[LayerUses]) -> Option<Use>
    requires number { (i : ℕ) (l : OfLayer) → slice_get layers.now i ≡ Some l → l.number ≡ i }
    requires policy { (i : ℕ) (l : OfLayer) → slice_get layers.now i ≡ Some l → l.policy ≡ order.policy }
    ensures { IsFirst order (λ _. true) (use_among layers.now) result }
{
    let mut first = None;
    'looking: for layer in layers {
        first = sooner(order, first, layer.first(order.ranking));
    }
    first
}

/// The key of a use.
pub fn key_of(entry: Option<Use>) -> Option<MetaKey>
    ensures { result ≡ option_map (λ u. u.meta) entry }
{
    match entry {
        None => None,
        Some(found) => Some(found.meta),
    }
}

/// The key of a use that is not saved.
pub fn unsaved_key(entry: Option<Use>) -> Option<MetaKey>
    ensures { result ≡ unsaved_key entry }
{
    match entry {
        None => None,
        Some(found) => {
            if found.uses == found.saved {
                return None;
            }
            Some(found.meta)
        }
    }
}
