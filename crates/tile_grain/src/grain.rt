//! The least length of an encoded tile.
ghost use Rattle.std.specs.List.{AllByRecursion};
ghost use Rattle.std.specs.Prelude.{◌≡◌, ◌≤◌, ◌<◌, IfOk, Ok};
ghost use Rattle.catalog.specs.Valid.{IsGrid, IsValid};
ghost use Rattle.catalog.specs.declared.catalogue.Catalogue.{Catalogue};
ghost use Rattle.config_text.specs.Text.{catalogue_of};
ghost use Rattle.matrix_geometry.specs.Limits.{IsWithinLimits};
ghost use Rattle.tile_grain.specs.Grain.{AreLongIn, AreLongOn};

use catalog::{Catalogue, CatalogueFault, Grid};
use config_text::read_catalogue;
use matrix_geometry::Matrix;
use metatile_plan::tile_len;
use std::alloc::{AllocError, Global};

/// The grain where there is no catalogue: an encoded tile of one pixel has so many bytes, and none has fewer.
pub const LEAST_GRAIN: u32 = 14;

/// The most bytes of an encoded tile.
const MOST: u32 = 1_000_000;

/// The least of a number and the lengths of encoded tiles on some matrices.
fn least_on(matrices: &[Matrix], most: u32) -> u32
    requires limits { AllByRecursion IsWithinLimits matrices.now }
    requires most { 8 < most }
    ensures some { 8 < result }
    ensures most { result ≤ most }
    ensures least { AreLongOn result matrices.now }
{
    match matrices {
        [] => most,
        [first, rest @ ..] => least_on(rest, most.min(tile_len(first))),
    }
}

/// The least of a number and the lengths of encoded tiles on the matrices of some grids.
fn least_in(grids: &[Grid], most: u32) -> u32
    requires limits { AllByRecursion IsGrid grids.now }
    requires most { 8 < most }
    ensures some { 8 < result }
    ensures most { result ≤ most }
    ensures least { AreLongIn result grids.now }
{
    match grids {
        [] => most,
        [first, rest @ ..] => {
            let least = least_in(rest, most);
            least_on(first.matrices.as_slice(), least)
        }
    }
}

/// So many bytes each tile has at least of the catalogue of a text; `LEAST_GRAIN` where the text is refused. `AllocError` where memory runs
/// out.
#[tactic(auto, using(crate::proofs::Weaker::one_reading))]
pub fn grain_of(alloc: Global, text: &[u8]) -> Result<u32, AllocError>
    ensures some { IfOk result (λ grain. 8 < grain) }
    ensures least { IfOk result (λ grain. (c : Catalogue) → catalogue_of text.now ≡ Ok c → AreLongIn grain c.grids) }
{
    match read_catalogue(alloc, text) {
        Ok(catalogue) => Ok(least_in(catalogue.grids.as_slice(), MOST)),
        Err(CatalogueFault::OutOfMemory) => Err(AllocError),
        Err(_) => Ok(LEAST_GRAIN),
    }
}
