//! The counts of what is kept.
ghost use Rattle.std.specs.Prelude.{◌≡◌, ◌≤◌, length};
ghost use Rattle.cabinet_chest.specs.Counts.{counts_of};

use crate::command::Counts;
use cabinet::Keeper;

/// What is kept of the layer with this number, or of all layers where the number is how many there are.
pub fn counts_of<K: Keeper>(keeper: &K, layer: u32) -> Counts
    requires { layer ≤ length (K.state keeper.now).catalogue.layers }
    ensures { result ≡ counts_of (K.state keeper.now) layer }
{
    let cuts = keeper.cuts();
    if (layer as usize) < keeper.catalogue().layers.len() {
        return Counts {
            metatiles: keeper.kept_in(layer),
            bytes: keeper.used(layer),
            cuts,
        };
    }
    Counts {
        metatiles: keeper.kept(),
        bytes: keeper.used_all(),
        cuts,
    }
}
