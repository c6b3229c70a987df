//! The themes of a cover: how many there are, and each by its place.
ghost use Rattle.std.specs.Prelude.{◌≡◌, ◌*◌, ◌<◌, ◌≤◌, ◌^◌, Some, length, slice_get};
ghost use Rattle.catalog.specs.LookUp.{values_at};
ghost use Rattle.catalog.specs.Valid.{IsValid};
ghost use Rattle.job_forms.specs.Steps.{IsRowAt, numbers};
ghost use Rattle.job_forms.specs.Themes.{styles_of, themes, wanted_of};
ghost use Rattle.served_covers.specs.OfCatalogue.{IsCoverOf};

use crate::wanted::Wanted;
use catalog::Catalogue;
use matrix_geometry::Theme;
use truncation_list::Cover;

/// The styles of its layer that a cover is for.
#[tactic(auto, using(crate::proofs::WantedCounts::wanted_most), unfolding(crate::specs::Steps::numbers))]
fn styles(catalogue: &Catalogue, cover: &Cover) -> Wanted
    requires valid { IsValid catalogue.now }
    requires cover { IsCoverOf catalogue.now cover.now }
    ensures numbers { numbers result ≡ wanted_of (styles_of catalogue.now cover.now.layer) cover.now.filter.style }
    ensures most { length (numbers result) ≤ 32 }
{
    let layer = catalogue.layer(cover.layer);
    Wanted {
        below: layer.styles.len() as u32,
        only: cover.filter.style,
    }
}

/// The values of the layer's dimension at this place that are wanted: 0 alone where the layer has no dimension there.
#[tactic(auto, using(crate::proofs::WantedCounts::wanted_most, crate::proofs::WantedCounts::wanted_least), unfolding(crate::specs::Steps::numbers))]
fn values(catalogue: &Catalogue, layer: u32, place: u32, only: Option<u32>) -> Wanted
    requires valid { IsValid catalogue.now }
    ensures numbers { numbers result ≡ wanted_of (values_at catalogue.now layer place) only }
    ensures least { 1 ≤ length (numbers result) }
    ensures most { length (numbers result) ≤ 1024 }
{
    let below = match catalogue.dimension_at(layer, place) {
        None => 1,
        Some(dimension) => dimension.values.len() as u32,
    };
    Wanted { below, only }
}

/// How many themes a cover is for.
pub fn how_many_themes(catalogue: &Catalogue, cover: &Cover) -> u64
    requires valid { IsValid catalogue.now }
    requires cover { IsCoverOf catalogue.now cover.now }
    ensures value { result ≡ length (themes catalogue.now cover.now) }
    ensures most { result ≤ 2 ^ 45 }
{
    let [first, second, third, fourth] = cover.filter.dims;
    let style = styles(catalogue, cover).count();
    let first = values(catalogue, cover.layer, 0, first).count();
    let second = values(catalogue, cover.layer, 1, second).count();
    let third = values(catalogue, cover.layer, 2, third).count();
    let fourth = values(catalogue, cover.layer, 3, fourth).count();
    product(style, first, second, third, fourth)
}

/// Values of a layer's four dimensions that a cover is for, picked by a place among many.
#[derive(Clone, Copy, PartialEq, Eq)]
struct Row {
    values: [u32; 4],
    /// How often all rows of values went round before the place.
    rounds: u128,
}

/// The values at a place of a list in which the values that a cover is for go round, the last dimension fastest.
fn row_at(catalogue: &Catalogue, cover: &Cover, place: u128) -> Row
    requires { IsValid catalogue.now }
    ensures { IsRowAt catalogue.now cover.now.layer 0 cover.now.filter.dims place result.rounds result.values }
{
    let [first, second, third, fourth] = cover.filter.dims;
    let fourth = values(catalogue, cover.layer, 3, fourth).pick(place);
    let third = values(catalogue, cover.layer, 2, third).pick(fourth.rounds);
    let second = values(catalogue, cover.layer, 1, second).pick(third.rounds);
    let first = values(catalogue, cover.layer, 0, first).pick(second.rounds);
    Row {
        values: [first.number, second.number, third.number, fourth.number],
        rounds: first.rounds,
    }
}

/// The theme at this place among those that a cover is for.
#[tactic(auto, using(crate::proofs::ThemeValues::style_within, crate::proofs::ThemeValues::theme_stands))]
pub fn theme_at(catalogue: &Catalogue, cover: &Cover, place: u128) -> Theme
    requires valid { IsValid catalogue.now }
    requires cover { IsCoverOf catalogue.now cover.now }
    requires place { place < length (themes catalogue.now cover.now) }
    ensures { slice_get (themes catalogue.now cover.now) place ≡ Some result }
{
    let Row { values, rounds } = row_at(catalogue, cover, place);
    let style = styles(catalogue, cover).at(rounds);
    Theme {
        layer: cover.layer,
        style,
        dims: values,
    }
}

/// The product of how many styles and values there are.
fn product(styles: u64, first: u64, second: u64, third: u64, fourth: u64) -> u64
    requires styles { styles ≤ 32 }
    requires first { first ≤ 1024 }
    requires second { second ≤ 1024 }
    requires third { third ≤ 1024 }
    requires fourth { fourth ≤ 1024 }
    ensures value { result ≡ styles * (first * (second * (third * fourth))) }
    ensures most { result ≤ 2 ^ 45 }
{
    styles * (first * (second * (third * fourth)))
}
