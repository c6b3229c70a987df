//! The metatiles of a cover in one theme, on all its matrices: how many they are, and each by its place.
ghost use Rattle.std.specs.Prelude.{◌≡◌, ◌+◌, ◌*◌, ◌<◌, ◌≤◌, ◌^◌, Some, length, slice_get};
ghost use Rattle.catalog.specs.Valid.{IsValid};
ghost use Rattle.job_forms.specs.Places.{metas_of};
ghost use Rattle.matrix_geometry.specs.declared.theme.Theme.{Theme};
ghost use Rattle.served_covers.specs.OfCatalogue.{IsCoverOf};

use crate::metas::{how_many, meta_in, metas_at};
use catalog::Catalogue;
use matrix_geometry::Theme;
use metatile_plan::MetaKey;
use truncation_list::Cover;

/// The number after that of the cover's last matrix.
#[tactic(auto, using(crate::proofs::ZoomSteps::zoom_most))]
fn end_of(catalogue: &Catalogue, cover: &Cover) -> u32
    requires valid { IsValid catalogue.now }
    requires cover { IsCoverOf catalogue.now cover.now }
    ensures value { result ≡ cover.now.z_stop + 1 }
    ensures most { result ≤ 30 }
{
    cover.z_stop + 1
}

/// How many metatiles a cover is for in one theme, which is the same in each.
pub fn how_many_each(catalogue: &Catalogue, cover: &Cover) -> u128
    requires valid { IsValid catalogue.now }
    requires cover { IsCoverOf catalogue.now cover.now }
    ensures each { (theme : Theme) → length (metas_of catalogue.now cover.now theme) ≡ result }
    ensures most { result ≤ 30 * 2 ^ 62 }
{
    let end = end_of(catalogue, cover);
    let mut all: u128 = 0;
    'zooms: for z in cover.z_start..end {
        all += u128::from(how_many(metas_at(catalogue, cover, z)));
    }
    all
}

/// The metatile at this place among those that a cover is for in a theme.
pub fn meta_at(catalogue: &Catalogue, cover: &Cover, theme: Theme, place: u128) -> MetaKey
    requires valid { IsValid catalogue.now }
    requires cover { IsCoverOf catalogue.now cover.now }
    requires place { place < length (metas_of catalogue.now cover.now theme) }
    ensures { slice_get (metas_of catalogue.now cover.now theme) place ≡ Some result }
{
    let end = end_of(catalogue, cover);
    let mut left = place;
    'zooms: for z in cover.z_start..end {
        let metas = metas_at(catalogue, cover, z);
        let here = u128::from(how_many(metas));
        if left < here {
            return meta_in(theme, cover.grid, z, metas, left);
        }
        left -= here;
    }
    unreachable!()
}
