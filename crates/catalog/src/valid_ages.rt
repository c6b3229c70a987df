//! The first fault of the age limits of a layer: their number, then their zooms, which have to rise.
ghost use Rattle.std.specs.Prelude.{◌≡◌};
ghost use Rattle.catalog.specs.FirstFault.{ages_test, zooms_rise};

use crate::fault::{CatalogueFault, Field};
use crate::first_fault::unless;
use crate::layer::Age;
use crate::names::within;

/// Whether the zooms rise strictly and are at most 29.
pub fn zooms_rise(ages: &[Age]) -> bool
    ensures { result ≡ zooms_rise 0 ages.now }
{
    let mut least: u64 = 0;
    for age in ages {
        let zoom = u64::from(age.zoom);
        if !within(least, 29, zoom) {
            return false;
        }
        least = zoom + 1;
    }
    true
}

/// Tests the age limits of a layer.
#[tactic(auto, unfolding(crate::specs::FirstFault::ages_test))]
pub(crate) fn ages_test(at: u32, ages: &[Age]) -> Result<(), CatalogueFault>
    ensures { result ≡ ages_test at ages.now }
{
    unless(ages.len() <= 30, CatalogueFault::Limit(Field::Ages, at))?;
    unless(zooms_rise(ages), CatalogueFault::Bad(Field::Ages, at))
}
