//! Whether a layer, its styles and the values of its dimensions are what they were.
ghost use Rattle.std.specs.Prelude.{◌≡◌, ◌↔◌, true};
ghost use Rattle.catalogue_change.specs.Alike.{HaveSameNames, HaveSameValues, IsSameLayer, IsSameStyle, IsSameValue};

use crate::texts::{are_same_breaks, is_same_text, is_same_value};
use catalog::{Dimension, Layer};

fn have_same_names(old: &[Dimension], new: &[Dimension]) -> bool
    ensures { (result ≡ true) ↔ HaveSameNames old.now new.now }
{
    if old.len() != new.len() {
        return false;
    }
    'comparing: for at in 0..old.len() {
        if !is_same_text(&old[at].id, &new[at].id) {
            return false;
        }
    }
    true
}

/// Whether two layers are one, their grids, styles, values, quotas and ages aside.
pub fn is_same_layer(old: &Layer, new: &Layer) -> bool
    ensures { (result ≡ true) ↔ IsSameLayer old.now new.now }
{
    if !is_same_text(&old.id, &new.id) {
        return false;
    }
    if new.meta_x != old.meta_x {
        return false;
    }
    if new.meta_y != old.meta_y {
        return false;
    }
    if new.gutter != old.gutter {
        return false;
    }
    if new.cell != old.cell {
        return false;
    }
    have_same_names(old.dims.as_slice(), new.dims.as_slice())
}

/// Whether the style of a number has the name and the breaks that it had.
pub fn has_same_style(old: &Layer, new: &Layer, number: u32) -> bool
    ensures { (result ≡ true) ↔ IsSameStyle old.now new.now number }
{
    let Some(style) = old.styles.get(number as usize) else {
        return false;
    };
    let Some(other) = new.styles.get(number as usize) else {
        return false;
    };
    if !is_same_text(&style.id, &other.id) {
        return false;
    }
    are_same_breaks(style.breaks.as_slice(), other.breaks.as_slice())
}

/// Whether the value of a number is the same text, where the layer has a dimension at this place.
fn has_same_value(old: &Layer, new: &Layer, place: usize, number: u32) -> bool
    ensures { (result ≡ true) ↔ IsSameValue old.now new.now place number }
{
    let Some(dimension) = old.dims.get(place) else {
        return true;
    };
    let Some(other) = new.dims.get(place) else {
        return false;
    };
    is_same_value(dimension.values.as_slice(), other.values.as_slice(), number)
}

/// Whether the values of these numbers, one at each place, are the same texts.
pub fn has_same_values(old: &Layer, new: &Layer, numbers: &[u32]) -> bool
    ensures { (result ≡ true) ↔ HaveSameValues old.now new.now numbers.now }
{
    for (place, number) in numbers.iter().enumerate() {
        if !has_same_value(old, new, place, *number) {
            return false;
        }
    }
    true
}
