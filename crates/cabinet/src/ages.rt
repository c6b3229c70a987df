//! How old a kept metatile may be that answers for a tile.
ghost use Rattle.std.specs.Prelude.{◌≡◌};
ghost use Rattle.cabinet.specs.Commands.{is_within};
ghost use Rattle.cabinet.specs.Fresh.{limit_for};
ghost use Rattle.catalog.specs.LookUp.{IsTile};
ghost use Rattle.catalog.specs.Valid.{IsValid};

use catalog::Catalogue;
use matrix_geometry::Address;

/// The age limit of the tile's layer at its zoom, in seconds; `None` where there is none.
pub fn limit_for(catalogue: &Catalogue, address: &Address) -> Option<u32>
    requires valid { IsValid catalogue.now }
    requires tile { IsTile catalogue.now address.now }
    ensures { result ≡ limit_for catalogue.now address.now }
{
    catalogue.layer_of(&address.theme).age_limit(address.z)
}

/// Whether a render that was begun at a moment is within an age limit at another. All are in seconds.
pub fn is_within(limit: Option<u32>, begun: u64, moment: u64) -> bool
    ensures { result ≡ is_within limit begun moment }
{
    match limit {
        None => true,
        Some(seconds) => moment.saturating_sub(begun) <= u64::from(seconds),
    }
}
